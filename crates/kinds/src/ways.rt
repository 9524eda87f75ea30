// Counts the rows with a sum, for every sum up to 32 at once, up to 2^32 rows.
ghost use Rattle.std.specs.Prelude.{◌≡◌, ◌≤◌, true, [], IfOk, slice_index};
ghost use Rattle.std.specs.List.{All};
ghost use Rattle.kinds.specs.Bins.{capped_ways, count_with, counts_with, bins_of};
ghost use Rattle.kinds.specs.Counts.{counted};
ghost use Rattle.kinds.specs.Lists.{ways};
ghost use Rattle.kinds.specs.Ranges.{all_between};

use super::shape::Bin;
use std::alloc::{AllocError, Global};
use std::array;

// One more row than a walk may have: counts go no higher.
const CAP: u64 = 4294967296;

// How many rows there are with each sum.
#[derive(Drop)]
struct Ways {
    counts: [u64; 33],
    ghost few: { All (λ n. n ≤ 4294967296) counts },
}

impl Ways {
    // The counts of no stocks: one row, with the sum 0.
    #[tactic(auto, using(crate::specs::WayCounts::ways_none))]
    fn none() -> Ways
        ensures { result.counts ≡ capped_ways [] }
    {
        let mut counts = [0; 33];
        counts[0] = 1;
        Ways { counts }
    }

    // The rows with a sum of a stock and those behind it.
    fn sum_with(&self, most: u16, sum: usize) -> u64
        requires { sum ≤ 32 }
        ensures { result ≡ count_with most self.now.counts sum }
    {
        let first = sum.saturating_sub(usize::from(most));
        self.counts[first..=sum].iter().sum::<u64>().min(CAP)
    }

    // The counts of a stock and those behind it.
    fn with(&self, most: u16) -> Ways
        ensures { result.counts ≡ counts_with most self.now.counts }
    {
        Ways {
            counts: array::from_fn(|sum| self.sum_with(most, sum)),
        }
    }

    // The counts of the stocks.
    fn of(stocks: &[u16]) -> Ways
        ensures { result.counts ≡ capped_ways stocks.now }
    {
        stocks
            .iter()
            .rev()
            .fold(Ways::none(), |behind, most| behind.with(*most))
    }
}

// The number of rows of the stocks with a sum, or `None` where a walk may not have as many.
#[tactic(auto, using(crate::specs::WayCounts::ways_converted))]
pub(crate) fn count_ways(stocks: &[u16], sum: u16) -> Option<u32>
    requires { sum ≤ 32 }
    ensures { result ≡ counted (ways stocks.now sum) }
{
    u32::try_from(Ways::of(stocks).counts[usize::from(sum)]).ok()
}

// Each stock with the counts of the stocks behind it.
pub(crate) fn bins_of(heap: Global, stocks: &[u16]) -> Result<Vec<Bin>, AllocError>
    requires { all_between 0 32 stocks.now ≡ true }
    ensures { IfOk result (λ v. v.items ≡ bins_of stocks.now) }
{
    // A `for`: the counts run along, which in a chain would be a closure that changes them.
    let mut bins = Vec::with_capacity(heap, stocks.len())?;
    let mut behind = Ways::none();
    for most in stocks.iter().rev() {
        bins.push(Bin {
            most: *most as u8,
            ways: behind.counts,
        })?;
        behind = behind.with(*most);
    }
    bins.reverse();
    Ok(bins)
}
