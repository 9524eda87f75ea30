// Makes the parts of a plan.
ghost use Rattle.std.specs.Prelude.{◌≡◌, ◌≤◌, length, MatchResult};
ghost use Rattle.std.specs.Option.{option_map, unwrap_or};
ghost use Rattle.walk.specs.declared.making.MakingFault.TheVariants.{NoMemory};
ghost use Rattle.kinds.specs.Kinds.{kind_meaning};
ghost use Rattle.text.specs.Coming.{coming};
ghost use Rattle.plan.specs.Format.{blank, parts_made};
ghost use Rattle.plan.specs.Reading.{meanings, Gives};

use crate::field::Field;
use crate::number::number;
use crate::part::Head;
use faults::{Cause, PartFault, PlanFault};
use kinds::kind::Kind;
use std::alloc::Global;
use text::pieces::Pieces;
use walk::making::MakingFault;

// Makes the parts that stand on line 2 and after, up to the first fault. Two loops, left by a label at that fault, with each number
// taken by `let .. else`: a rule of the project.
pub(crate) fn make_parts(heap: Global, lines: Pieces<'_>) -> Result<Vec<Kind>, PlanFault>
    requires few { length (coming lines) ≤ 3 }
    ensures { Gives (λ v. meanings v.items) result (parts_made (coming lines.entry)) }
{
    let mut made = Vec::new(heap);
    'parts: {
        for (line, bytes) in (2..5).zip(lines) {
            let part = Field { line, bytes };
            let Some(head) = Head::of(part) else {
                break 'parts Err(part.fault(Cause::Part(PartFault::Form)));
            };
            let mut list = Vec::new(heap);
            for piece in head.entries {
                let Some(x) = number(piece) else {
                    break 'parts Err(part.fault(Cause::Part(PartFault::Form)));
                };
                list.push(x)?;
            }
            match head.make(heap, &list) {
                Ok(kind) => made.push(kind)?,
                Err(e) => break 'parts Err(part.fault(Cause::from(e))),
            }
        }
        Ok(made)
    }
}

// The part, or where there is none `gray` with n 0. `map_or_else(.., Ok)` would be no plainer.
pub(crate) fn or_blank(heap: Global, part: Option<Kind>) -> Result<Kind, MakingFault>
    ensures { MatchResult result (λ k. kind_meaning k ≡ unwrap_or (option_map kind_meaning part) blank) (λ e. e ≡ NoMemory) }
{
    match part {
        Some(kind) => Ok(kind),
        None => Kind::gray(heap, 0, &[]),
    }
}
