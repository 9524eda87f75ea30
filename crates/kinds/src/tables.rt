// What the kinds are made from: the numbers are tested, then the rows are counted, and then memory is asked for. Each table has
// these three steps in a line each, and nothing else to share.
ghost use Rattle.std.specs.Prelude.{◌≡◌, ◌≤◌, true, length, replicate, IfOk, sum};
ghost use Rattle.kinds.specs.Bins.{bins_of};
ghost use Rattle.kinds.specs.Counts.{Tabled};
ghost use Rattle.kinds.specs.Kinds.{radices_fit, stocks_fit, choice_fits, counts_fit};
ghost use Rattle.kinds.specs.Lists.{product, ways, words};
ghost use Rattle.kinds.specs.Ranges.{all_between};
ghost use Rattle.kinds.specs.Shapes.{levels_of};

use super::levels::{count_rows, levels_of};
use super::multiset::count_words;
use super::ranges::{choice_fits, counts_fit, radices_fit, stocks_fit};
use super::shape::{Bin, Level};
use super::ways::{bins_of, count_ways};
use std::alloc::{AllocError, Global};
use walk::making::MakingFault;

// The levels of n radices, and the number of their rows.
pub(crate) fn radix_table(
    heap: Global,
    n: u16,
    list: &[u16],
) -> Result<(Vec<Level>, u32), MakingFault>
    ensures { Tabled (radices_fit n list.now) (product list.now) (λ x. (x.0.items ≡ levels_of list.now) × (x.1 ≡ product list.now)) result }
{
    if !radices_fit(n, list) {
        return Err(MakingFault::OutOfRange);
    }
    let size = count_rows(list).ok_or(MakingFault::TooManyRows)?;
    let levels = levels_of(heap, list, size)?;
    Ok((levels, size))
}

// The bins of stocks, and the number of their rows with a sum.
fn sums_table(heap: Global, stocks: &[u16], t: u16) -> Result<(Vec<Bin>, u32), MakingFault>
    requires stocks { all_between 0 32 stocks.now ≡ true }
    requires sum { t ≤ 32 }
    ensures { Tabled true (ways stocks.now t) (λ x. (x.0.items ≡ bins_of stocks.now) × (x.1 ≡ ways stocks.now t)) result }
{
    let size = count_ways(stocks, t).ok_or(MakingFault::TooManyRows)?;
    let bins = bins_of(heap, stocks)?;
    Ok((bins, size))
}

// The bins of n stocks, and the number of their rows with the sum t.
pub(crate) fn stock_table(
    heap: Global,
    n: u16,
    t: u16,
    list: &[u16],
) -> Result<(Vec<Bin>, u32), MakingFault>
    ensures { Tabled (stocks_fit n t list.now) (ways list.now t) (λ x. (x.0.items ≡ bins_of list.now) × (x.1 ≡ ways list.now t)) result }
{
    if !stocks_fit(n, t, list) {
        return Err(MakingFault::OutOfRange);
    }
    sums_table(heap, list, t)
}

// The bins of n stocks of 1, and the number of their rows with the sum t.
#[tactic(auto, using(crate::proofs::MadeTables::ones_between, crate::proofs::MadeTables::ones_taken))]
pub(crate) fn choice_table(heap: Global, n: u16, t: u16) -> Result<(Vec<Bin>, u32), MakingFault>
    ensures { Tabled (choice_fits n t) (ways (replicate n 1) t) (λ x. (x.0.items ≡ bins_of (replicate n 1)) × (x.1 ≡ ways (replicate n 1) t)) result }
{
    if !choice_fits(n, t) {
        return Err(MakingFault::OutOfRange);
    }
    // No memory is asked for before the rows are counted.
    let ones = [1u16; 32];
    sums_table(heap, &ones[..usize::from(n)], t)
}

// The counts as bytes.
fn bytes_of(heap: Global, counts: &[u16]) -> Result<Vec<u8>, AllocError>
    requires { sum counts.now ≤ 32 }
    ensures { IfOk result (λ v. v.items ≡ counts.now) }
{
    counts.iter().map(|count| *count as u8).collect(heap)
}

// n counts, and the number of their words.
pub(crate) fn words_table(heap: Global, n: u16, list: &[u16]) -> Result<(Vec<u8>, u32), MakingFault>
    ensures { Tabled (counts_fit n list.now) (length (words list.now)) (λ x. (x.0.items ≡ list.now) × (x.1 ≡ length (words list.now))) result }
{
    if !counts_fit(n, list) {
        return Err(MakingFault::OutOfRange);
    }
    let size = count_words(list).ok_or(MakingFault::TooManyRows)?;
    let counts = bytes_of(heap, list)?;
    Ok((counts, size))
}
