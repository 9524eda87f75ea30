// The calls of a walk, on a ladder.
ghost use Rattle.std.specs.Prelude.{◌≡◌, true};
ghost use Rattle.walk.specs.Making.{new_walk};
ghost use Rattle.ladder.specs.Ladder.{ladder_rows, ladder_meaning};
ghost use Rattle.ladder.specs.Rungs.{ladder_lawful};

use super::Ladder;
use walk::Walk;
use walk::answers::Refusal;

impl Ladder {
    // The ladder with that many rungs, standing at the lowest.
    pub fn new(rungs: u8) -> Ladder
        ensures { ladder_meaning result ≡ new_walk (ladder_rows rungs) 1 true }
    {
        Ladder { rungs, place: 0 }
    }
}

impl Walk for Ladder {
    ghost meaning = { ladder_meaning };

    ghost lawful = { ladder_lawful };

    #[tactic(auto, using(crate::specs::Rungs::ladder_length))]
    fn size(&self) -> u32 {
        u32::from(self.rungs)
    }

    fn width(&self) -> usize {
        1
    }

    fn place(&self) -> u32 {
        u32::from(self.place)
    }

    fn steady(&self) -> bool {
        true
    }

    #[tactic(auto, using(crate::specs::Rungs::ladder_length))]
    fn seek(&mut self, label: u32) -> Result<(), Refusal> {
        if label >= u32::from(self.rungs) {
            return Err(Refusal::NoSuchLabel);
        }
        self.place = label as u8;
        Ok(())
    }

    #[tactic(auto, using(crate::specs::Rungs::ladder_short, crate::specs::Rungs::ladder_read))]
    fn read(&self, tray: &mut [u8]) -> Result<(), Refusal> {
        if self.rungs == 0 {
            return Err(Refusal::NoSuchLabel);
        }
        if tray.is_empty() {
            return Err(Refusal::ShortTray);
        }
        tray[0] = self.place;
        Ok(())
    }

    #[tactic(auto, using(crate::specs::Rungs::ladder_lost, crate::specs::Rungs::ladder_found))]
    fn find(&self, row: &[u8]) -> Result<u32, Refusal> {
        match row {
            [rung] if *rung < self.rungs => Ok(u32::from(*rung)),
            _ => Err(Refusal::NoSuchRow),
        }
    }
}
