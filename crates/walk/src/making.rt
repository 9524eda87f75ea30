// Why a walk could not be made, and what a refused making gives back.
ghost use Rattle.std.specs.Prelude.{◌≡◌};
ghost use Rattle.walk.specs.Making.{making_number};
ghost use Rattle.walk.specs.declared.making.MakingFault.TheVariants.{NoMemory};

use std::alloc::{AllocError, AllocFailed};

#[derive(Clone, Copy, PartialEq, Eq, Debug)]
pub enum MakingFault {
    // 1: a number is outside its range, or the list has not n entries
    OutOfRange,
    // 2: more rows than a walk may have
    TooManyRows,
    // no number: there was no memory for the walk
    NoMemory,
}

impl MakingFault {
    // The number by which the fault is told; none for want of memory.
    pub fn number(self) -> Option<u8>
        ensures { result ≡ making_number self }
    {
        match self {
            MakingFault::OutOfRange => Some(1),
            MakingFault::TooManyRows => Some(2),
            MakingFault::NoMemory => None,
        }
    }
}

// The conversions are written out, since a derived one promises no value.

impl From<AllocError> for MakingFault {
    ghost from_gives = { λ _ r. r ≡ NoMemory };

    fn from(_e: AllocError) -> MakingFault {
        Self::NoMemory
    }
}

impl<T: Drop> From<AllocFailed<T>> for MakingFault {
    ghost from_gives = { λ _ r. r ≡ NoMemory };

    fn from(_e: AllocFailed<T>) -> MakingFault {
        Self::from(AllocError)
    }
}

// Why nothing was made, and what was handed over, as it was.
#[derive(Drop)]
pub struct Refused<F, W> {
    pub fault: F,
    pub kept: W,
}
