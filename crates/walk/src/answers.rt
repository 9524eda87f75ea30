// Why a call of a walk was refused, and what `change` answers.
ghost use Rattle.std.specs.Prelude.{◌≡◌};
ghost use Rattle.walk.specs.Answers.{refusal_number};

#[derive(Clone, Copy, PartialEq, Eq, Debug)]
pub enum Refusal {
    // 4: no row has that label, or there is no row to go to or to read
    NoSuchLabel,
    // 5: the tray is shorter than a row
    ShortTray,
    // 6: the row is not in the walk
    NoSuchRow,
}

impl Refusal {
    // The number by which the refusal is told. A method, and no trait or `From`, here and for the faults: no code is generic over
    // what has a number, and the name says which number it is.
    pub fn number(self) -> u8
        ensures { result ≡ refusal_number self }
    {
        match self {
            Refusal::NoSuchLabel => 4,
            Refusal::ShortTray => 5,
            Refusal::NoSuchRow => 6,
        }
    }
}

// The lowest and the highest place at which two rows differ.
#[derive(Clone, Copy, PartialEq, Eq, Debug)]
pub struct Span {
    pub lowest: usize,
    pub highest: usize,
}
