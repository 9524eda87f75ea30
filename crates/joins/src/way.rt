// The way of a step: to the next label, or to the one before.
ghost use Rattle.std.specs.Prelude.{◌≡◌, ◌-◌, ◌<◌, if◌then◌else◌, Ok};
ghost use Rattle.walk.specs.Meaning.{size, standing};
ghost use Rattle.joins.specs.Steps.{goes_down, right_way, steps, after_step};

use walk::Walk;
use walk::answers::Refusal;

// An enum and no closure, since the way of the right walk is found out at each step.
#[derive(Clone, Copy, PartialEq, Eq, Debug)]
pub(crate) enum Way {
    Up,
    Down,
}

impl Way {
    // The way that the right walk goes: the other one where its rows come backward, which is a fact about a row and no way.
    pub(crate) fn turned(self, back: bool) -> Way
        ensures { goes_down result ≡ right_way back (goes_down self) }
    {
        match (self, back) {
            (Way::Up, false) | (Way::Down, true) => Way::Up,
            (Way::Up, true) | (Way::Down, false) => Way::Down,
        }
    }

    // Goes one label that way.
    pub(crate) fn step<W: Walk>(self, walk: &mut W) -> Result<(), Refusal>
        ensures answer { result ≡ steps (goes_down self) (W.Walk.meaning walk.old) }
        ensures after { W.Walk.meaning walk.new ≡ after_step (goes_down self) (W.Walk.meaning walk.old) }
    {
        match self {
            Way::Up => walk.advance(),
            Way::Down => walk.back(),
        }
    }

    // Goes to the row from which all others lie that way: the first one for up, the last one for down.
    pub(crate) fn begin<W: Walk>(self, walk: &mut W) -> Result<(), Refusal>
        requires { 0 < size (W.Walk.meaning walk.old) }
        ensures answer { result ≡ Ok tt }
        ensures after { W.Walk.meaning walk.new ≡ standing (W.Walk.meaning walk.old) (if goes_down self then size (W.Walk.meaning walk.old) - 1 else 0) }
    {
        match self {
            Way::Up => walk.seek(0),
            Way::Down => walk.seek(walk.size() - 1),
        }
    }
}
