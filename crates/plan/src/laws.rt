// What holds of the definitions that the contracts cite.
ghost use Rattle.std.specs.Prelude.{◌≡◌, [], Ok};
ghost use Rattle.kinds.specs.Kinds.{gray_made};
ghost use Rattle.plan.specs.Written.{PartLinesLaws, TextsLaws};
ghost use Rattle.plan.specs.Format.{blank};
ghost use Rattle.plan.specs.Numbers.{NumbersLaws};

// The numbers of a text are the decimal numbers below 1000.
#[tactic(auto, using(crate::proofs::Decimals::numbers_laws))]
pub fn numbers_stand()
    ensures { NumbersLaws }
{}

// A missing part is what `gray` makes with n 0.
pub fn blank_stands()
    ensures { gray_made 0 [] ≡ Ok blank }
{}

// A line is read as a part exactly where it writes one: the word for a kind, n, t and the list.
#[tactic(auto, using(crate::proofs::PartLines::part_lines_laws))]
pub fn part_lines_stand()
    ensures { PartLinesLaws }
{}

// A text is read by its lines exactly where it is written of them.
#[tactic(auto, using(crate::proofs::PlanTexts::texts_laws))]
pub fn texts_stand()
    ensures { TextsLaws }
{}
