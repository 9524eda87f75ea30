// Why two walks could not be joined.
ghost use Rattle.std.specs.Prelude.{◌≡◌};
ghost use Rattle.joins.specs.Fault.{join_number};
ghost use Rattle.joins.specs.declared.fault.JoinFault.TheVariants.{Making};

use walk::making::MakingFault;

#[derive(Clone, Copy, PartialEq, Eq, Debug)]
pub enum JoinFault {
    // a fault that any making may have
    Making(MakingFault),
    // 3: a row would have more than 64 values
    TooWide,
}

impl JoinFault {
    // The number by which the fault is told; none for want of memory.
    pub fn number(self) -> Option<u8>
        ensures { result ≡ join_number self }
    {
        match self {
            JoinFault::Making(fault) => fault.number(),
            JoinFault::TooWide => Some(3),
        }
    }
}

// Written out, since a derived conversion promises no value.
impl From<MakingFault> for JoinFault {
    ghost from_gives = { λ e r. r ≡ Making e };

    fn from(making: MakingFault) -> JoinFault {
        JoinFault::Making(making)
    }
}
