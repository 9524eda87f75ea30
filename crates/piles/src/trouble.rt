// Why the program could not go on.
ghost use Rattle.std.specs.Prelude.{◌≡◌};
ghost use Rattle.walk.specs.declared.making.MakingFault.TheVariants.{NoMemory};
ghost use Rattle.joins.specs.declared.fault.JoinFault.TheVariants.{Making};
ghost use Rattle.piles.specs.declared.trouble.Trouble.TheVariants.{Pile, Output};

use joins::fault::JoinFault;
use std::alloc::AllocError;
use std::io;
use walk::making::{MakingFault, Refused};

#[derive(Debug, Drop)]
pub(crate) enum Trouble {
    // a walk was not made
    Pile(JoinFault),
    // a line was not written
    Output(io::Error),
}

// The conversions are written out, since a derived one promises no value.

impl From<MakingFault> for Trouble {
    ghost from_gives = { λ e r. r ≡ Pile (Making e) };

    fn from(fault: MakingFault) -> Trouble {
        Trouble::Pile(JoinFault::Making(fault))
    }
}

impl From<AllocError> for Trouble {
    ghost from_gives = { λ _ r. r ≡ Pile (Making NoMemory) };

    fn from(e: AllocError) -> Trouble {
        Self::from(MakingFault::from(e))
    }
}

impl From<JoinFault> for Trouble {
    ghost from_gives = { λ e r. r ≡ Pile e };

    fn from(fault: JoinFault) -> Trouble {
        Trouble::Pile(fault)
    }
}

// What was handed over is dropped.
impl<F: Into<Trouble>, W: Drop> From<Refused<F, W>> for Trouble {
    ghost from_gives = { λ e r. F.converts e.fault r };

    fn from(refused: Refused<F, W>) -> Trouble {
        refused.fault.into()
    }
}

impl From<io::Error> for Trouble {
    ghost from_gives = { λ e r. r ≡ Output e };

    fn from(e: io::Error) -> Trouble {
        Trouble::Output(e)
    }
}
