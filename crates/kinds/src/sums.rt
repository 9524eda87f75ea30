// The tree of rows with a sum, for `stock`, `choose` and `door`.
ghost use Rattle.std.specs.Prelude.{◌≡◌, ◌<◌, ◌≤◌, true, not, ◌||◌, length, sum};
ghost use Rattle.kinds.specs.Bins.{mosts, bins_hold, filled, node_leaf};
ghost use Rattle.kinds.specs.Ranges.{all_between};
ghost use Rattle.kinds.specs.Lists.{ways};
ghost use Rattle.kinds.specs.Shapes.{reflects};

use super::shape::{Bin, Order};
use super::stretch::Stretch;
use super::tree::{Node, falls_in};

// The stocks that are left, the sum that they are to have, and the order of the rows.
#[derive(Clone, Copy)]
pub(crate) struct StockNode<'a> {
    bins: &'a [Bin],
    left: u8,
    order: Order,
    ghost hold: { bins_hold bins.now ≡ true },
    ghost small: { left ≤ 32 },
    ghost few: { ways (mosts bins.now) left ≤ 4294967295 },
    ghost some: { 0 < ways (mosts bins.now) left },
    ghost ones: { (not (reflects order) || all_between 1 1 (mosts bins.now)) ≡ true },
}

// How many rows the counts say together. `multiset::total` has another type and bound. Written out in `enter`, the bounds of the
// sum and of the cast stayed open.
fn total(counts: &[u64]) -> u32
    requires { sum counts.now ≤ 4294967295 }
    ensures { result ≡ sum counts.now }
{
    counts.iter().sum::<u64>() as u32
}

impl<'a> StockNode<'a> {
    // The node above all rows of the stocks with a sum. It asks once what its ghost fields say.
    pub(crate) fn new(bins: &'a [Bin], left: u8, order: Order) -> StockNode<'a>
        requires hold { bins_hold bins.now ≡ true }
        requires small { left ≤ 32 }
        requires few { ways (mosts bins.now) left ≤ 4294967295 }
        requires some { 0 < ways (mosts bins.now) left }
        requires ones { (not (reflects order) || all_between 1 1 (mosts bins.now)) ≡ true }
        ensures { (result.bins.now ≡ bins.now) × (result.left ≡ left) × (result.order ≡ order) }
    {
        StockNode { bins, left, order }
    }
}

impl Node for StockNode<'_> {
    ghost below = { λ n. filled (reflects n.order) (mosts n.bins.now) n.left };

    ghost depth = { λ n. length n.bins.now };

    ghost leaf = { λ n none. node_leaf (reflects n.order) n.bins.now n.left none n.some };

    fn pick(&self, label: u32) -> u8 {
        let bin = &self.bins[0];
        // A larger value leaves a smaller sum to the stocks behind, so the counts are read from the last to the first. The label is
        // below those of the values up to the stock together, and falls to none behind them.
        let counts = &bin.ways[..usize::from(self.left) + 1];
        falls_in(counts.iter().rev().copied(), u64::from(label)).unwrap_or(0)
    }

    #[tactic(auto, using(crate::specs::RowSums::entering))]
    fn enter(&mut self, value: u8) -> Option<Stretch> {
        let bin = &self.bins[0];
        if value > bin.most.min(self.left) {
            return None;
        }
        let behind = usize::from(self.left - value);
        let count = bin.ways[behind];
        if count == 0 {
            return None;
        }
        // smaller values leave more of the sum to the stocks behind
        let from = total(&bin.ways[behind + 1..usize::from(self.left) + 1]);
        self.bins = &self.bins[1..];
        self.left -= value;
        Some(Stretch {
            from,
            count: count as u32,
            backward: self.order.turns(value),
        })
    }
}
