// How two rows differ.
ghost use Rattle.std.specs.Prelude.{◌≡◌, length};
ghost use Rattle.walk.specs.Answers.{span_of};
ghost use Rattle.walk.specs.Rows.{lowest, highest};

use super::answers::Span;

// Two rows of one width.
#[derive(Clone, Copy)]
pub(crate) struct RowPair<'a> {
    pub(crate) here: &'a [u8],
    pub(crate) next: &'a [u8],
    ghost one_width: { length here.now ≡ length next.now },
}

impl RowPair<'_> {
    // The lowest place at which the rows differ, or their width where they are the same.
    #[tactic(auto, using(crate::proofs::Differences::lowest_is, crate::proofs::Differences::lowest_none))]
    fn lowest(&self) -> usize
        ensures { result ≡ lowest self.now.here.now self.now.next.now }
    {
        // Rows are compared by a loop over their values with an index: a rule of the project.
        for i in 0..self.here.len() {
            if self.here[i] != self.next[i] {
                return i;
            }
        }
        self.here.len()
    }

    // The highest place at which the rows differ, or 0 where they are the same.
    #[tactic(auto, using(crate::proofs::Differences::highest_is, crate::proofs::Differences::highest_none))]
    fn highest(&self) -> usize
        ensures { result ≡ highest self.now.here.now self.now.next.now }
    {
        // A loop with an index here too, by the same rule.
        for i in (0..self.here.len()).rev() {
            if self.here[i] != self.next[i] {
                return i;
            }
        }
        0
    }

    // Both ends of the change from the one row to the other.
    pub(crate) fn span(&self) -> Span
        ensures { result ≡ span_of self.now.here.now self.now.next.now }
    {
        Span {
            lowest: self.lowest(),
            highest: self.highest(),
        }
    }
}
