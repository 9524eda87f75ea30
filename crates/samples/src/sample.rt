// A plan text, and all that is to hold of it.
use super::check::holds;
use super::tally::Tally;
use listing::report;
use plan::read::read;
use std::alloc::{AllocError, Global};
use text::pieces::Pieces;

// The text that a sample writes with `~` for the byte 10 and `^` for the byte 200.
fn unescaped(heap: Global, sample: &[u8]) -> Result<Vec<u8>, AllocError> {
    sample
        .iter()
        .map(|byte| match *byte {
            b'~' => b'\n',
            b'^' => 200,
            other => other,
        })
        .collect(heap)
}

// Whether what the lister writes is the fault.
fn fault_is(report: &[u8], fault: &[u8]) -> bool {
    let mut lines = Pieces::new(report, b'\n');
    let names = lines.next() == Some(b"number,line,layer".as_slice());
    names && lines.next() == Some(fault)
}

// Whether the lister writes just what is expected of the text.
fn report_is(heap: Global, text: &[u8], expected: &[u8]) -> Result<bool, AllocError> {
    let told = report(heap, text)?;
    let expected = unescaped(heap, expected)?;
    Ok(told.as_bytes() == expected.as_slice())
}

// Whether all that the line claims of its text holds.
pub(crate) fn run(heap: Global, line: &[u8], tally: &mut Tally) -> Result<bool, AllocError> {
    let mut claims = Pieces::new(line, b'|');
    let text = unescaped(heap, claims.next().unwrap_or(b""))?;
    let Ok(mut walk) = read(heap, &text) else {
        tally.faults = tally.faults.saturating_add(1);
        let told = report(heap, &text)?;
        return Ok(fault_is(told.as_bytes(), claims.next().unwrap_or(b"")));
    };
    tally.plans = tally.plans.saturating_add(1);
    for claim in claims {
        let good = match claim.strip_prefix(b"report:") {
            Some(expected) => report_is(heap, &text, expected)?,
            None => holds(&mut walk, claim),
        };
        if !good {
            return Ok(false);
        }
        tally.claims = tally.claims.saturating_add(1);
    }
    Ok(true)
}
