// What holds of the definitions that the contracts cite.
ghost use Rattle.std.specs.Prelude.{◌<◌, List, length};
ghost use Rattle.book.specs.LaneLaws.{IsLongest};
ghost use Rattle.book.specs.Lanes.{longest};
ghost use Rattle.book.specs.declared.lane.Lane.{Lane};

// The longest lane has the most labels left, and the lowest number where several have as many.
#[tactic(auto, using(crate::proofs::Longest::longest_stands))]
pub fn longest_stands()
    ensures { (lanes : List Lane) → 0 < length lanes → IsLongest lanes (longest lanes) }
{}
