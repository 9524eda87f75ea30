// Reads a plan text, from its bytes to its walk.
ghost use Rattle.plan.specs.Format.{plan_of};
ghost use Rattle.plan.specs.Reading.{plan_meaning, Gives};

use crate::field::Lines;
use crate::joining::join_parts;
use crate::parts::{make_parts, or_blank};
use faults::{Cause, PlanFault};
use joins::join::Join;
use kinds::kind::Kind;
use std::alloc::Global;

// The walk of a plan: the first part joined with the join of the second and the third.
pub type Plan = Join<Kind, Join<Kind, Kind>>;

// The walk that the text asks for, or its first fault.
pub fn read(heap: Global, text: &[u8]) -> Result<Plan, PlanFault>
    ensures { Gives plan_meaning result (plan_of text.now) }
{
    let lines = Lines::of(text).ok_or(PlanFault {
        cause: Cause::Text,
        line: 0,
    })?;
    if lines.names.bytes != b"kind,n,t,list".as_slice() {
        return Err(lines.names.fault(Cause::Names));
    }
    let mut parts = make_parts(heap, lines.parts)?.into_iter();
    let first = or_blank(heap, parts.next())?;
    let second = or_blank(heap, parts.next())?;
    let third = or_blank(heap, parts.next())?;
    join_parts(first, second, third)
}
