// Why a call of the book was refused, and why no book was opened.
ghost use Rattle.std.specs.Prelude.{◌≡◌};
ghost use Rattle.book.specs.Refusals.{refusal_number, opening_number};
ghost use Rattle.book.specs.declared.refusal.BookRefusal.TheVariants.{Row};
ghost use Rattle.book.specs.declared.refusal.OpeningFault.TheVariants.{NoMemory};

use std::alloc::AllocError;
use walk::answers::Refusal;

#[derive(Clone, Copy, PartialEq, Eq, Debug)]
pub enum BookRefusal {
    // the walk refused, with its own number: 4, 5 or 6
    Row(Refusal),
    // 7: no printer has that number
    UnknownPrinter,
    // 8: the printer's hand holds a label
    HandFull,
    // 9: nothing waits, and all lanes are empty
    NothingLeft,
    // 10: the printer's hand is empty
    HandEmpty,
    // 11: the row is not the one in the printer's hand
    OtherRow,
    // 12: the bench has fewer rows than the walk
    NotAllPrinted,
}

impl BookRefusal {
    // The number by which the refusal is told.
    pub fn number(self) -> u8
        ensures { result ≡ refusal_number self }
    {
        match self {
            BookRefusal::Row(refusal) => refusal.number(),
            BookRefusal::UnknownPrinter => 7,
            BookRefusal::HandFull => 8,
            BookRefusal::NothingLeft => 9,
            BookRefusal::HandEmpty => 10,
            BookRefusal::OtherRow => 11,
            BookRefusal::NotAllPrinted => 12,
        }
    }
}

// The conversions are written out, since a derived one promises no value.

impl From<Refusal> for BookRefusal {
    ghost from_gives = { λ e r. r ≡ Row e };

    fn from(e: Refusal) -> BookRefusal {
        BookRefusal::Row(e)
    }
}

#[derive(Clone, Copy, PartialEq, Eq, Debug)]
pub enum OpeningFault {
    // 7: the number of printers is not 1 to 16
    NumberOfPrinters,
    // no number: there was no memory for the book
    NoMemory,
}

impl OpeningFault {
    // The number by which the fault is told; none for want of memory.
    pub fn number(self) -> Option<u8>
        ensures { result ≡ opening_number self }
    {
        match self {
            OpeningFault::NumberOfPrinters => Some(7),
            OpeningFault::NoMemory => None,
        }
    }
}

impl From<AllocError> for OpeningFault {
    ghost from_gives = { λ _ r. r ≡ NoMemory };

    fn from(_e: AllocError) -> OpeningFault {
        Self::NoMemory
    }
}
