// The calls of a book.
ghost use Rattle.std.specs.Prelude.{◌≡◌, ◌<◌, ◌≤◌, length, Ok};
ghost use Rattle.walk.specs.Meaning.{size, standing};
ghost use Rattle.book.specs.Calls.{takes, after_take, tray_after_take, prints, after_printed, spoils, after_spoiled, shows, after_row, tray_after_row, labels, counted, closes};
ghost use Rattle.book.specs.State.{state};

use super::book::Book;
use super::counts::Counts;
use super::refusal::BookRefusal;
use walk::Walk;
use walk::answers::Refusal;

impl<W: Walk> Book<W> {
    // The row with a label, written into the tray.
    pub fn row(&mut self, label: u32, tray: &mut [u8]) -> Result<u32, BookRefusal>
        ensures answer { result ≡ shows (state W.Walk.meaning self.old) label tray.old }
        ensures after { state W.Walk.meaning self.new ≡ after_row (state W.Walk.meaning self.old) label tray.old }
        ensures bytes { tray.new ≡ tray_after_row (state W.Walk.meaning self.old) label tray.old }
    {
        if label >= self.walk.size() {
            return Err(BookRefusal::Row(Refusal::NoSuchLabel));
        }
        if tray.len() < self.walk.width() {
            return Err(BookRefusal::Row(Refusal::ShortTray));
        }
        // `take` has these two calls too; one function for both would want a clause for each of their cases.
        self.walk.seek(label)?;
        self.walk.read(tray)?;
        Ok(label)
    }

    // The label of a row.
    pub fn label(&self, row: &[u8]) -> Result<u32, BookRefusal>
        ensures { result ≡ labels (state W.Walk.meaning self.now) row.now }
    {
        Ok(self.walk.find(row)?)
    }

    // How many rows are on the bench, in hands, waiting and undrawn.
    pub fn counts(&self) -> Counts
        ensures { result ≡ counted (state W.Walk.meaning self.now) }
    {
        Counts {
            bench: self.ledger.bench,
            hands: self.ledger.hands(),
            waiting: self.ledger.waiting.len() as u32,
            undrawn: self.ledger.undrawn(),
        }
    }

    // The row was printed and is the one in the printer's hand: it goes on the bench.
    #[tactic(auto, using(crate::proofs::Accounts::emptied))]
    pub fn printed(&mut self, printer: usize, row: &[u8]) -> Result<u32, BookRefusal>
        ensures answer { result ≡ prints (state W.Walk.meaning self.old) printer row.now }
        ensures after { state W.Walk.meaning self.new ≡ after_printed (state W.Walk.meaning self.old) printer row.now }
    {
        let label = self.ledger.held(printer)?;
        if self.walk.find(row)? != label {
            return Err(BookRefusal::OtherRow);
        }
        self.ledger.lanes[printer].hand = None;
        self.ledger.bench += 1;
        Ok(label)
    }

    // The print is spoiled: the label in the printer's hand waits for the next free printer.
    #[tactic(auto, using(crate::proofs::Accounts::emptied))]
    pub fn spoiled(&mut self, printer: usize) -> Result<u32, BookRefusal>
        ensures answer { result ≡ spoils (state W.Walk.meaning self.old) printer }
        ensures after { state W.Walk.meaning self.new ≡ after_spoiled (state W.Walk.meaning self.old) printer }
    {
        let label = self.ledger.held(printer)?;
        self.ledger.lanes[printer].hand = None;
        self.ledger.waiting.push_back_reserved(label);
        Ok(label)
    }

    // Gives the printer its next label, and writes the label's row into the tray.
    #[tactic(auto, using(crate::proofs::Draws::drew, crate::proofs::Draws::drew_drawable))]
    pub fn take(&mut self, printer: usize, tray: &mut [u8]) -> Result<u32, BookRefusal>
        ensures answer { result ≡ takes (state W.Walk.meaning self.old) printer tray.old }
        ensures after { state W.Walk.meaning self.new ≡ after_take (state W.Walk.meaning self.old) printer tray.old }
        ensures bytes { tray.new ≡ tray_after_take (state W.Walk.meaning self.old) printer tray.old }
    {
        if self.ledger.lane(printer)?.hand.is_some() {
            return Err(BookRefusal::HandFull);
        }
        if tray.len() < self.walk.width() {
            return Err(BookRefusal::Row(Refusal::ShortTray));
        }
        let draw = self
            .ledger
            .next_draw(printer)
            .ok_or(BookRefusal::NothingLeft)?;
        self.walk.seek(draw.label)?;
        self.walk.read(tray)?;
        self.ledger.remove(draw.from);
        self.ledger.lanes[printer].hand = Some(draw.label);
        Ok(draw.label)
    }

    // The number of rows, once all of them are on the bench.
    pub fn close(&self) -> Result<u32, BookRefusal>
        ensures { result ≡ closes (state W.Walk.meaning self.now) }
    {
        let rows = self.walk.size();
        if self.ledger.bench < rows {
            return Err(BookRefusal::NotAllPrinted);
        }
        Ok(rows)
    }
}
