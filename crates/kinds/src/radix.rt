// The tree of mixed radices, for `digits` and `gray`.
ghost use Rattle.std.specs.Prelude.{◌≡◌, ◌≤◌, true, length};
ghost use Rattle.kinds.specs.Lists.{product};
ghost use Rattle.kinds.specs.Shapes.{radices, reflects, mixed, mixed_leaf, levels_hold};

use super::shape::{Level, Order};
use super::stretch::Stretch;
use super::tree::Node;

// The radices that are left, and the order of the rows.
#[derive(Clone, Copy)]
pub(crate) struct RadixNode<'a> {
    levels: &'a [Level],
    order: Order,
    ghost hold: { levels_hold levels.now ≡ true },
    ghost few: { product (radices levels.now) ≤ 4294967295 },
}

impl<'a> RadixNode<'a> {
    // The node above all rows of the levels. It asks once what its ghost fields say.
    pub(crate) fn new(levels: &'a [Level], order: Order) -> RadixNode<'a>
        requires hold { levels_hold levels.now ≡ true }
        requires few { product (radices levels.now) ≤ 4294967295 }
        ensures { (result.levels.now ≡ levels.now) × (result.order ≡ order) }
    {
        RadixNode { levels, order }
    }
}

impl Node for RadixNode<'_> {
    ghost below = { λ n. mixed (reflects n.order) (radices n.levels.now) };

    ghost depth = { λ n. length n.levels.now };

    ghost leaf = { λ n none. mixed_leaf (reflects n.order) n.levels.now none };

    #[tactic(auto, using(crate::specs::MixedRadix::levels_some, crate::specs::MixedRadix::levels_pick))]
    fn pick(&self, label: u32) -> u8 {
        (label / self.levels[0].below) as u8
    }

    #[tactic(auto, using(crate::specs::MixedRadix::entering))]
    fn enter(&mut self, value: u8) -> Option<Stretch> {
        let Level { radix, below } = self.levels[0];
        self.levels = &self.levels[1..];
        if value >= radix {
            return None;
        }
        Some(Stretch {
            from: u32::from(value) * below,
            count: below,
            backward: self.order.turns(value),
        })
    }
}
