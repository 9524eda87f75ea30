// The rows of a walk, backward.
ghost use Rattle.std.specs.Prelude.{◌≡◌};
ghost use Rattle.walk.specs.Meaning.{standing};
ghost use Rattle.layers.specs.Reverse.{reversed};
ghost use Rattle.layers.specs.Reversed.{reverse_lawful};

use walk::Walk;
use walk::answers::Refusal;

// It stands where the walk below stands, with the label counted from the other end.
#[derive(Drop)]
pub struct Reverse<W> {
    below: W,
}

impl<W: Walk> Reverse<W> {
    // The list below backward, standing at 0.
    pub fn new(mut below: W) -> Reverse<W>
        ensures { reversed (W.Walk.meaning result.below) ≡ standing (reversed (W.Walk.meaning below)) 0 }
    {
        let size = below.size();
        if size > 0 {
            let _ = below.seek(size - 1);
        }
        Reverse { below }
    }
}

impl<W: Walk> Walk for Reverse<W> {
    ghost meaning = { λ s. reversed (W.Walk.meaning s.below) };

    ghost lawful = { λ w. reverse_lawful (W.Walk.meaning w.below) (W.Walk.lawful w.below) };

    fn size(&self) -> u32 {
        self.below.size()
    }

    fn width(&self) -> usize {
        self.below.width()
    }

    fn place(&self) -> u32 {
        match self.below.size() {
            0 => 0,
            size => size - 1 - self.below.place(),
        }
    }

    fn steady(&self) -> bool {
        self.below.steady()
    }

    fn seek(&mut self, label: u32) -> Result<(), Refusal> {
        let size = self.below.size();
        if label >= size {
            return Err(Refusal::NoSuchLabel);
        }
        self.below.seek(size - 1 - label)
    }

    fn read(&self, tray: &mut [u8]) -> Result<(), Refusal> {
        self.below.read(tray)
    }

    #[tactic(auto, using(crate::specs::Reversed::reverse_found, crate::specs::Reversed::reverse_lost, walk::proofs::Cases::found_below))]
    fn find(&self, row: &[u8]) -> Result<u32, Refusal> {
        let label = self.below.find(row)?;
        Ok(self.below.size() - 1 - label)
    }

    fn advance(&mut self) -> Result<(), Refusal> {
        self.below.back()
    }

    fn back(&mut self) -> Result<(), Refusal> {
        self.below.advance()
    }
}
