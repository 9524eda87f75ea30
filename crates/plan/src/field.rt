// Parts of a plan text, which they borrow, with the line on which they stand.
ghost use Rattle.std.specs.Prelude.{◌≡◌, IfSome};
ghost use Rattle.std.specs.Option.{option_map};
ghost use Rattle.text.specs.Coming.{coming};
ghost use Rattle.text.specs.Pieces.{pieces};
ghost use Rattle.faults.specs.Faults.{fault as lined};
ghost use Rattle.plan.specs.Format.{lines_of_text, one_to_three, four_fields};
ghost use Rattle.plan.specs.Reading.{lines_read, fields_read, OnLine};

use faults::{Cause, PlanFault};
use text::pieces::Pieces;

// A part of the text; lines count from 1.
#[derive(Clone, Copy)]
pub struct Field<'a> {
    pub line: u8,
    pub bytes: &'a [u8],
}

// The lines of a text: the names line, and those of the parts.
#[derive(Clone, Copy)]
pub struct Lines<'a> {
    pub names: Field<'a>,
    pub parts: Pieces<'a>,
}

// The fields of a line.
#[derive(Clone, Copy)]
pub struct Fields<'a> {
    pub kind: Field<'a>,
    pub n: Field<'a>,
    pub t: Field<'a>,
    pub list: Field<'a>,
}

// The longest text that is read, in bytes.
pub const LONGEST: usize = 4096;

// Whether one to three pieces are still to come.
fn one_to_three(mut parts: Pieces<'_>) -> bool
    ensures { result ≡ one_to_three (coming parts.entry) }
{
    let four = (parts.next(), parts.next(), parts.next(), parts.next());
    matches!(four, (Some(_), _, _, None))
}

impl<'a> Lines<'a> {
    // Two to four lines, each ended by a line feed.
    #[tactic(auto, using(crate::proofs::Ends::lines_open, crate::proofs::Ends::lines_ended))]
    pub fn of(text: &'a [u8]) -> Option<Lines<'a>>
        ensures parts { option_map lines_read result ≡ lines_of_text text.now }
        ensures placed { IfSome result (λ l. l.names.line ≡ 1) }
    {
        if text.len() > LONGEST {
            return None;
        }
        let body = text.strip_suffix(b"\n".as_slice())?;
        let mut parts = Pieces::new(body, b'\n');
        let names = Field {
            line: 1,
            bytes: parts.next()?,
        };
        if !one_to_three(parts) {
            return None;
        }
        Some(Lines { names, parts })
    }
}

impl<'a> Field<'a> {
    // Four fields with commas between them.
    pub fn fields(self) -> Option<Fields<'a>>
        ensures parts { option_map fields_read result ≡ four_fields (pieces 44 self.entry.bytes.now) }
        ensures placed { IfSome result (OnLine self.entry.line) }
    {
        let mut fields = Pieces::new(self.bytes, b',').map(|bytes| Field { bytes, ..self });
        let kind = fields.next()?;
        let n = fields.next()?;
        let t = fields.next()?;
        let list = fields.next()?;
        if fields.next().is_some() {
            return None;
        }
        Some(Fields { kind, n, t, list })
    }

    // The fault with this line.
    pub fn fault(self, cause: Cause) -> PlanFault
        ensures { result ≡ lined cause self.entry.line }
    {
        PlanFault {
            cause,
            line: self.line,
        }
    }
}
