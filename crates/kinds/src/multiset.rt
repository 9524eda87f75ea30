// The tree of `words`, and how many words there are of given counts.
ghost use Rattle.std.specs.Prelude.{◌≡◌, ◌+◌, ◌*◌, ◌/◌, ◌<◌, ◌≤◌, length, take, sum};
ghost use Rattle.kinds.specs.Counts.{counted};
ghost use Rattle.kinds.specs.Lists.{words_of, words};
ghost use Rattle.kinds.specs.WordNodes.{words_leaf, mixings};

use super::stretch::Stretch;
use super::tree::{Node, falls_in};
use arrayvec::ArrayVec;

// How many values the counts say together: one call of the library's `sum`, with the bound that it asks for.
pub(crate) fn total(counts: &[u8]) -> u8
    requires { sum counts.now ≤ 255 }
    ensures { result ≡ sum counts.now }
{
    counts.iter().copied().sum()
}

// How often each value is still to come, how many values that is together, and the number of words that are left to
// write with them. `read` and `find` ask for no memory, so the counts stand in a vector of fixed capacity.
#[derive(Drop)]
pub(crate) struct WordsNode {
    counts: ArrayVec<u8, 32>,
    left: u8,
    rows: u32,
    ghost summed: { left ≡ sum counts.items },
    ghost known: { rows ≡ length (words_of left counts.items) },
}

impl WordsNode {
    // The node above all words of the counts, of which there are `rows`.
    pub(crate) fn new(counts: &[u8], rows: u32) -> WordsNode
        requires within { length counts.now ≤ 32 }
        requires few { sum counts.now ≤ 255 }
        requires known { rows ≡ length (words counts.now) }
        ensures { (result.left ≡ sum counts.now) × (result.counts.items ≡ counts.now) }
    {
        WordsNode {
            counts: ArrayVec::try_from(counts).unwrap(),
            left: total(counts),
            rows,
        }
    }

    // How many values below v are to come.
    fn before(&self, v: usize) -> u8
        requires { v ≤ length self.now.counts.items }
        ensures { result ≡ sum (take v self.now.counts.items) }
    {
        // what is left fits a byte, and so does any part of it
        prove!(self.left <= 255);
        total(&self.counts[..v])
    }

    // The number of words that fall to a part of the values that are left.
    #[tactic(auto, using(crate::proofs::WordTree::share_few))]
    fn share(&self, part: u8) -> u32
        requires some { 0 < self.now.left }
        requires part { part ≤ self.now.left }
        ensures { result ≡ part * self.now.rows / self.now.left }
    {
        (u64::from(part) * u64::from(self.rows) / u64::from(self.left)) as u32
    }
}

impl Node for WordsNode {
    ghost below = { λ n. words_of n.left n.counts.items };

    ghost depth = { λ n. n.left };

    ghost leaf = { λ n none. words_leaf n.left n.counts.items none };

    // The values have their shares of the words in order, so the label falls among the counts as it does among the words.
    fn pick(&self, label: u32) -> u8 {
        let place = u64::from(label) * u64::from(self.left) / u64::from(self.rows);
        let counts = self.counts.iter().map(|count| u64::from(*count));
        falls_in(counts, place).unwrap_or(0)
    }

    #[tactic(auto, using(crate::proofs::WordTree::before_within, crate::proofs::WordTree::count_within, crate::proofs::WordTree::node_lacks, crate::proofs::WordTree::node_less, crate::proofs::WordTree::node_rows, crate::proofs::WordTree::node_enters))]
    fn enter(&mut self, value: u8) -> Option<Stretch> {
        let v = usize::from(value);
        if v >= self.counts.len() || self.counts[v] == 0 {
            return None;
        }
        let from = self.share(self.before(v));
        let count = self.share(self.counts[v]);
        self.counts[v] -= 1;
        self.left -= 1;
        self.rows = count;
        Some(Stretch {
            from,
            count,
            backward: false,
        })
    }
}

// The number of rows after `others` equal values are mixed into each of `rows` rows of `some` other values, or `None`
// where a walk may not have as many.
fn mix(rows: u32, some: u16, others: u16) -> Option<u32>
    requires { some + others ≤ 32 }
    ensures { result ≡ counted (rows * mixings some others) }
{
    (0..others).try_fold(rows, |mixed, done| {
        let more = u64::from(mixed) * u64::from(some + done + 1) / u64::from(done + 1);
        u32::try_from(more).ok()
    })
}

// The number of words of the counts, or `None` where a walk may not have as many.
#[tactic(auto, using(crate::proofs::WordCounts::sum_within, crate::specs::Limits::counted_within))]
pub(crate) fn count_words(counts: &[u16]) -> Option<u32>
    requires { sum counts.now ≤ 32 }
    ensures { result ≡ counted (length (words counts.now)) }
{
    // A `for`: a `try_fold` would carry both numbers as a pair, and drop one at the end.
    let mut rows = 1;
    let mut some = 0;
    for count in counts {
        rows = mix(rows, some, *count)?;
        some += *count;
    }
    Some(rows)
}
