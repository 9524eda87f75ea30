// The rows of a walk from one label up to another.
ghost use Rattle.std.specs.Prelude.{◌≡◌};
ghost use Rattle.layers.specs.Part.{cut, cut_behind, cut_ahead, cut_start, Cuts};
ghost use Rattle.layers.specs.Pieces.{part_lawful};

use walk::Walk;
use walk::answers::Refusal;
use walk::making::{MakingFault, Refused};

// The walk below stands inside the part, with some rows of the part behind that place, and some from it on.
#[derive(Drop)]
pub struct Part<W> {
    below: W,
    behind: u32,
    ahead: u32,
}

impl<W: Walk> Part<W> {
    // The rows from the label `from` up to, not including, `to`, standing at the first. A refusal gives the walk back as it was.
    pub fn new(mut below: W, from: u32, to: u32) -> Result<Part<W>, Refused<MakingFault, W>>
        ensures { Cuts W.Walk.meaning below from to result }
    {
        if from > to || to > below.size() {
            return Err(Refused {
                fault: MakingFault::OutOfRange,
                kept: below,
            });
        }
        let _ = below.seek(from);
        Ok(Part {
            below,
            behind: 0,
            ahead: to - from,
        })
    }

    // The number of rows from the place on.
    fn ahead(&self) -> u32
        ensures { result ≡ cut_ahead self.now.ahead (W.Walk.meaning self.now.below) }
    {
        self.ahead.min(self.below.size() - self.below.place())
    }

    // The number of rows behind the place.
    fn behind(&self) -> u32
        ensures { result ≡ cut_behind self.now.behind self.now.ahead (W.Walk.meaning self.now.below) }
    {
        if self.ahead() == 0 {
            return 0;
        }
        self.behind.min(self.below.place())
    }

    // The label below of the first row.
    fn start(&self) -> u32
        ensures { result ≡ cut_start self.now.behind self.now.ahead (W.Walk.meaning self.now.below) }
    {
        self.below.place() - self.behind()
    }
}

impl<W: Walk> Walk for Part<W> {
    ghost meaning = { λ s. cut s.behind s.ahead (W.Walk.meaning s.below) };

    ghost lawful = { λ w. part_lawful (W.Walk.meaning w.below) (W.Walk.lawful w.below) w.behind w.ahead };

    fn size(&self) -> u32 {
        self.behind() + self.ahead()
    }

    fn width(&self) -> usize {
        self.below.width()
    }

    fn place(&self) -> u32 {
        self.behind() // the label is the number of rows behind
    }

    fn steady(&self) -> bool {
        self.below.steady()
    }

    fn seek(&mut self, label: u32) -> Result<(), Refusal> {
        let (start, size) = (self.start(), self.size());
        if label >= size {
            return Err(Refusal::NoSuchLabel);
        }
        self.below.seek(start + label)?;
        self.behind = label;
        self.ahead = size - label;
        Ok(())
    }

    fn read(&self, tray: &mut [u8]) -> Result<(), Refusal> {
        if self.ahead() == 0 {
            return Err(Refusal::NoSuchLabel);
        }
        self.below.read(tray)
    }

    #[tactic(auto, using(crate::specs::Pieces::part_size, crate::specs::Pieces::part_lost, crate::specs::Pieces::part_found))]
    fn find(&self, row: &[u8]) -> Result<u32, Refusal> {
        let label = self.below.find(row)?;
        let start = self.start();
        if label < start || label - start >= self.size() {
            return Err(Refusal::NoSuchRow);
        }
        Ok(label - start)
    }

    fn advance(&mut self) -> Result<(), Refusal> {
        let (behind, ahead) = (self.behind(), self.ahead());
        if ahead <= 1 {
            return Err(Refusal::NoSuchLabel);
        }
        self.below.advance()?;
        self.behind = behind + 1;
        self.ahead = ahead - 1;
        Ok(())
    }

    fn back(&mut self) -> Result<(), Refusal> {
        let (behind, ahead) = (self.behind(), self.ahead());
        if behind == 0 {
            return Err(Refusal::NoSuchLabel);
        }
        self.below.back()?;
        self.behind = behind - 1;
        self.ahead = ahead + 1;
        Ok(())
    }
}
