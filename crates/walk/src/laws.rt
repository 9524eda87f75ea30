// What holds of the definitions that the contracts cite.
ghost use Rattle.std.specs.Prelude.{◌≡◌, ◌≢◌, length};
ghost use Rattle.walk.specs.Answers.{span_of};
ghost use Rattle.walk.specs.Meaning.{Meaning, Lawful};
ghost use Rattle.walk.specs.Rows.{Row};
ghost use Rattle.walk.specs.WalkLaws.{FindLaws, SpanLaws};

// `find` tells the label of each row, and of nothing else.
#[tactic(auto, using(crate::proofs::Spans::finds_stand))]
pub fn finds_stand()
    ensures { (m : Meaning) → Lawful m → FindLaws m }
{}

// Between two rows of one width that are not the same `change` tells the first and the last place at which they differ.
#[tactic(auto, using(crate::proofs::Spans::spans_stand))]
pub fn spans_stand()
    ensures { (r s : Row) → length r ≡ length s → r ≢ s → SpanLaws r s (span_of r s) }
{}
