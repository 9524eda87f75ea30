// Why a plan text was refused, and where.
#![tactic(auto)]

ghost use Rattle.std.specs.Prelude.{◌≡◌, Some};
ghost use Rattle.walk.specs.declared.making.MakingFault.TheVariants.{NoMemory};
ghost use Rattle.faults.specs.Faults.{cause_number, cause_layer, layer_text, fault as lined};
ghost use Rattle.faults.specs.declared.PartFault.TheVariants.{Making};
ghost use Rattle.faults.specs.declared.Cause.TheVariants.{Part as PartCause, Join as JoinCause};

use joins::fault::JoinFault;
use std::alloc::AllocFailed;
use std::fmt;
use walk::making::MakingFault;

// What is wrong with the line of a part.
#[derive(Clone, Copy, PartialEq, Eq, Debug)]
pub enum PartFault {
    // 14: the line has not the form of a part
    Form,
    // the line has that form, and the kind that it asks for could not be made
    Making(MakingFault),
}

// What is wrong with a text.
#[derive(Clone, Copy, PartialEq, Eq, Debug)]
pub enum Cause {
    // 15: too long, or not the lines of a plan
    Text,
    // 13: the first line is not the names line
    Names,
    Part(PartFault),
    // the parts stand, and could not be joined
    Join(JoinFault),
}

// What is wrong with a text, and the line on which it stands: 0 for the whole text, lines count from 1.
#[derive(Clone, Copy, PartialEq, Eq, Debug)]
pub struct PlanFault {
    pub cause: Cause,
    pub line: u8,
}

// What found the fault: the reader of the text, the maker of a part, or the maker of a join.
#[derive(Clone, Copy, PartialEq, Eq, Debug)]
pub enum Layer {
    Text,
    Part,
    Join,
}

impl PlanFault {
    // The number by which the fault is told; none for want of memory.
    pub fn number(self) -> Option<u8>
        ensures { result ≡ cause_number self.cause }
    {
        match self.cause {
            Cause::Text => Some(15),
            Cause::Names => Some(13),
            Cause::Part(PartFault::Form) => Some(14),
            Cause::Part(PartFault::Making(fault)) => fault.number(),
            Cause::Join(fault) => fault.number(),
        }
    }

    pub fn layer(self) -> Layer
        ensures { result ≡ cause_layer self.cause }
    {
        match self.cause {
            Cause::Part(PartFault::Making(_)) => Layer::Part,
            Cause::Join(_) => Layer::Join,
            _ => Layer::Text,
        }
    }
}

impl fmt::Display for Layer {
    ghost output = { λ layer. Some (layer_text layer) };

    fn fmt<W: fmt::Write>(&self, f: &mut fmt::Formatter<W>) -> fmt::Result {
        f.write_str(match self {
            Layer::Text => "text",
            Layer::Part => "part",
            Layer::Join => "join",
        })
    }
}

// The conversions are written out, since a derived one promises no value.

impl From<MakingFault> for PartFault {
    ghost from_gives = { λ fault r. r ≡ Making fault };

    fn from(fault: MakingFault) -> PartFault {
        PartFault::Making(fault)
    }
}

impl From<PartFault> for Cause {
    ghost from_gives = { λ fault r. r ≡ PartCause fault };

    fn from(fault: PartFault) -> Cause {
        Cause::Part(fault)
    }
}

impl From<JoinFault> for Cause {
    ghost from_gives = { λ fault r. r ≡ JoinCause fault };

    fn from(join: JoinFault) -> Cause {
        Cause::Join(join)
    }
}

// A fault of making that no line of the text has brought about.
impl From<MakingFault> for PlanFault {
    ghost from_gives = { λ fault r. r ≡ lined (PartCause (Making fault)) 0 };

    fn from(fault: MakingFault) -> PlanFault {
        PlanFault {
            cause: Cause::from(PartFault::from(fault)),
            line: 0,
        }
    }
}

impl<T: Drop> From<AllocFailed<T>> for PlanFault {
    ghost from_gives = { λ _ r. r ≡ lined (PartCause (Making NoMemory)) 0 };

    fn from(e: AllocFailed<T>) -> PlanFault {
        Self::from(MakingFault::from(e))
    }
}
