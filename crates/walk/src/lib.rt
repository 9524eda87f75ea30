// What a walk is: a numbered list of rows, in an order in which it can be stepped through, searched and read.
#![tactic(auto)]

pub mod answers;
pub mod laws;
pub mod making;
mod rows;

ghost use Rattle.std.specs.Prelude.{◌≡◌, ℕ, ◌+◌, Bool};
ghost use Rattle.walk.specs.Meaning.{Meaning, Lawful, size};
ghost use Rattle.walk.specs.Answers.{seeks, after_seek, backs, after_back, reads, after_read, finds, changes};

use answers::{Refusal, Span};
use rows::RowPair;

pub trait Walk {
    // what the walk means: its rows, their width, the place at which it stands, and its answer to `steady`
    ghost meaning: { Self → Meaning };

    // The number of rows.
    fn size(&self) -> u32
        ensures { result ≡ size (meaning self.now) };

    // The number of values in a row.
    fn width(&self) -> usize
        ensures { result ≡ (meaning self.now).width };

    // The label at which the walk stands.
    fn place(&self) -> u32
        ensures { result ≡ (meaning self.now).place };

    // Whether neighbouring rows are promised to differ in at most two places.
    fn steady(&self) -> bool
        ensures { result ≡ (meaning self.now).steady };

    // Goes to a label.
    fn seek(&mut self, label: u32) -> Result<(), Refusal>
        ensures answer { result ≡ seeks (meaning self.old) label }
        ensures after { meaning self.new ≡ after_seek (meaning self.old) label };

    // Writes the row at the place into the first bytes of the tray.
    fn read(&self, tray: &mut [u8]) -> Result<(), Refusal>
        ensures answer { result ≡ reads (meaning self.now) tray.old }
        ensures bytes { tray.new ≡ after_read (meaning self.now) tray.old };

    // The label of a row.
    fn find(&self, row: &[u8]) -> Result<u32, Refusal>
        ensures { result ≡ finds (meaning self.now) row.now };

    // Goes up by one label.
    fn advance(&mut self) -> Result<(), Refusal>
        ensures answer { result ≡ seeks (meaning self.old) ((meaning self.old).place + 1) }
        ensures after { meaning self.new ≡ after_seek (meaning self.old) ((meaning self.old).place + 1) }
    {
        let place = self.place();
        if place + 1 >= self.size() {
            return Err(Refusal::NoSuchLabel);
        }
        self.seek(place + 1)
    }
    // Goes down by one label.
    fn back(&mut self) -> Result<(), Refusal>
        ensures answer { result ≡ backs (meaning self.old) }
        ensures after { meaning self.new ≡ after_back (meaning self.old) }
    {
        let place = self.place();
        if place == 0 {
            return Err(Refusal::NoSuchLabel);
        }
        self.seek(place - 1)
    }

    // The lowest and the highest place at which the row at the place differs from the next one. It steps up and back
    // again to read both, and so stands in the end where it stood.
    #[tactic(auto, using(crate::proofs::Calls::change_from_reads))]
    fn change(&mut self) -> Result<Span, Refusal>
        ensures answer { result ≡ changes (meaning self.old) }
        ensures same { meaning self.new ≡ meaning self.old }
    {
        let width = self.width();
        // Two arrays, since `change` asks for no memory from outside: no row is wider than 64.
        let mut next = [0u8; 64];
        let mut here = [0u8; 64];
        self.advance()?;
        self.read(&mut next)?;
        self.back()?;
        self.read(&mut here)?;
        let rows = RowPair {
            here: &here[0..width],
            next: &next[0..width],
        };
        Ok(rows.span())
    }

    ghost lawful: { (w : Self) → Lawful (meaning w) };
}
