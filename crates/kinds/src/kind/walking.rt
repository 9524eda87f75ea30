// The calls of a walk, on a kind.
ghost use Rattle.kinds.specs.Kinds.{kind_meaning};
ghost use Rattle.kinds.specs.ShapeLaws.{kind_lawful};

use super::Kind;
use walk::Walk;
use walk::answers::Refusal;

impl Walk for Kind {
    ghost meaning = { kind_meaning };

    ghost lawful = { kind_lawful };

    fn size(&self) -> u32 {
        self.size
    }

    fn width(&self) -> usize {
        self.width
    }

    fn place(&self) -> u32 {
        self.place // where it was left
    }

    fn steady(&self) -> bool {
        self.shape.steady()
    }

    fn seek(&mut self, label: u32) -> Result<(), Refusal> {
        if label >= self.size {
            return Err(Refusal::NoSuchLabel);
        }
        self.place = label;
        Ok(())
    }

    fn read(&self, tray: &mut [u8]) -> Result<(), Refusal> {
        if self.size == 0 {
            return Err(Refusal::NoSuchLabel);
        }
        if tray.len() < self.width {
            return Err(Refusal::ShortTray);
        }
        self.write_row(&mut tray[0..self.width]);
        Ok(())
    }

    fn find(&self, row: &[u8]) -> Result<u32, Refusal> {
        self.find_row(row).ok_or(Refusal::NoSuchRow)
    }
}
