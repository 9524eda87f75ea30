// Worked examples that follow from the definitions.
#![tactic(auto)]

ghost use Rattle.worked.specs.Examples.{ExamplesHold};

// The rows of small walks, a listing, and the answers of a book.
pub fn examples_hold()
    ensures { ExamplesHold }
{}
