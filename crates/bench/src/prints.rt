// Rows that are drawn and printed on a book.
use book::book::Book;
use book::refusal::BookRefusal;
use walk::Walk;

// The printer draws a row, prints it and reports it.
fn print_one<W: Walk>(
    book: &mut Book<W>,
    printer: usize,
    tray: &mut [u8],
    width: usize,
) -> Result<u32, BookRefusal> {
    book.take(printer, tray)?;
    book.printed(printer, &tray[..width.min(tray.len())])
}

// Each of the printers in turn draws a row and prints it; how many rows were printed.
pub(crate) fn printed<W: Walk>(
    book: &mut Book<W>,
    printers: usize,
    width: usize,
    turns: u32,
) -> u32 {
    let mut tray = [0u8; 64];
    let mut rows = 0u32;
    for turn in 0..turns {
        let printer = turn as usize % printers.max(1);
        if print_one(book, printer, &mut tray, width).is_ok() {
            rows = rows.saturating_add(1);
        }
    }
    rows
}
