// Writes the rows of a walk as text.
#![tactic(auto)]

ghost use Rattle.std.specs.Prelude.{◌≡◌, ◌<◌, ◌≤◌, true, ◌++◌, length, is_some, IfSome, IfOk, string_bytes, OnOk};
ghost use Rattle.walk.specs.Meaning.{size, row, standing};
ghost use Rattle.faults.specs.Faults.{cause_number};
ghost use Rattle.plan.specs.Format.{plan_of};
ghost use Rattle.listing.specs.Texts.{gap_text, row_text, line_text, listing_text, fault_text, told, report_text};

use faults::PlanFault;
use plan::read::read;
use std::alloc::{AllocError, Global};
use std::fmt::Display;
use walk::Walk;

// The most rows that are listed.
const MOST: u32 = 1000;

// What stands before the value at a place of a row: one blank or nothing, which wants no type to display.
fn gap(place: usize) -> &'static str
    ensures { result.now ≡ gap_text place }
{
    if place == 0 { "" } else { " " }
}

// Appends the values of a row, with one blank between neighbours.
#[tactic(auto, using(crate::proofs::Lines::row_text_more))]
pub fn push_row(out: &mut String, row: &[u8]) -> Result<(), AllocError>
    ensures { OnOk result (string_bytes out.new ≡ string_bytes out.old ++ row_text row.now) }
{
    for (place, value) in row.iter().enumerate() {
        let gap = gap(place);
        write!(out, "{gap}{value}")?;
    }
    Ok(())
}

// Appends the line of the row at a label, and leaves the walk there. The tray is as wide as a row.
fn push_line<W: Walk>(
    out: &mut String,
    walk: &mut W,
    tray: &mut [u8],
    label: u32,
) -> Result<(), AllocError>
    requires known { label < size (W.Walk.meaning walk.old) }
    requires wide { length tray.old ≡ (W.Walk.meaning walk.old).width }
    ensures after { W.Walk.meaning walk.new ≡ standing (W.Walk.meaning walk.old) label }
    ensures text { OnOk result (string_bytes out.new ≡ string_bytes out.old ++ line_text label (row (W.Walk.meaning walk.old) label)) }
{
    // The label is below the size and the tray is wide enough, so neither call is refused.
    let _ = walk.seek(label);
    let _ = walk.read(tray);
    write!(out, "{label},")?;
    push_row(out, tray)?;
    out.push('\n')
}

// The rows of a walk as text: the names, and then a line for each of the first 1,000 rows. The walk ends where it stood.
pub fn listing<W: Walk>(heap: Global, walk: &mut W) -> Result<String, AllocError>
    ensures text { IfOk result (λ s. string_bytes s ≡ listing_text (W.Walk.meaning walk.old)) }
    ensures same { OnOk result (W.Walk.meaning walk.new ≡ W.Walk.meaning walk.old) }
    ensures rows { standing (W.Walk.meaning walk.new) 0 ≡ standing (W.Walk.meaning walk.old) 0 }
{
    let place = walk.place();
    let mut out = String::from_str(heap, "label,row\n")?;
    let mut tray = vec![in heap; 0; walk.width()]?;
    for label in 0..walk.size().min(MOST) {
        push_line(&mut out, walk, &mut tray, label)?;
    }
    let _ = walk.seek(place);
    Ok(out)
}

// A fault as text: the names, and one line with its number, its line and its layer. It prints any number, and so takes no fault.
pub fn fault_text<L: Display + Drop>(
    heap: Global,
    number: u8,
    line: u8,
    layer: L,
) -> Result<String, AllocError>
    ensures { IfSome (L.Display.output layer) (λ word. IfOk result (λ s. string_bytes s ≡ fault_text number line word)) }
{
    format!(in heap; "number,line,layer\n{number},{line},{layer}\n")
}

// What is told of a fault; want of memory is not told.
pub fn tell(heap: Global, fault: PlanFault) -> Result<String, AllocError>
    ensures text { IfOk result (λ s. string_bytes s ≡ told fault (cause_number fault.cause)) }
    ensures numbered { OnOk result (is_some (cause_number fault.cause) ≡ true) }
{
    let number = fault.number().ok_or(AllocError)?;
    fault_text(heap, number, fault.line, fault.layer())
}

// What the lister writes of a plan text: its rows, or its fault.
pub fn report(heap: Global, text: &[u8]) -> Result<String, AllocError>
    ensures { IfOk result (λ s. string_bytes s ≡ report_text (plan_of text.now)) }
{
    match read(heap, text) {
        Ok(mut plan) => listing(heap, &mut plan),
        Err(fault) => tell(heap, fault),
    }
}
