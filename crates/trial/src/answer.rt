// What is answered to a line, and how it is written.
ghost use Rattle.std.specs.Prelude.{◌≡◌, ◌++◌, Some, OnOk};
ghost use Rattle.book.specs.Histories.{numbered as number_answer};
ghost use Rattle.trial.specs.Answers.{said, row_shown, answer_text, told};
ghost use Rattle.trial.specs.Lines.{line_text};

use arrayvec::ArrayVec;
use book::counts::Counts;
use book::refusal::{BookRefusal, OpeningFault};
use listing::push_row;
use std::alloc::AllocError;
use std::fmt;

#[derive(Drop)]
pub(crate) enum Answer {
    // a label, or a number of rows
    Number(u32),
    // a label and its row
    Shown(u32, ArrayVec<u8, 64>),
    Counted(Counts),
    Refused(BookRefusal),
    NotOpened(OpeningFault),
    // the line is no call
    Unknown,
}

// Written out, since a derived conversion promises no value.
impl From<Result<u32, BookRefusal>> for Answer {
    ghost from_gives = { λ res answer. answer_text answer ≡ told 0 (number_answer res) };

    fn from(res: Result<u32, BookRefusal>) -> Answer {
        res.map_or_else(Answer::Refused, Answer::Number)
    }
}

// The answer without its row. Want of memory is no answer. The counts are written here, since only a trial writes them so.
impl fmt::Display for Answer {
    ghost output = { λ answer. Some (said answer) };

    fn fmt<W: fmt::Write>(&self, f: &mut fmt::Formatter<W>) -> fmt::Result {
        match self {
            Answer::Number(number) | Answer::Shown(number, _) => write!(f, "{number}"),
            Answer::Counted(counts) => {
                let Counts {
                    bench,
                    hands,
                    waiting,
                    undrawn,
                } = counts;
                write!(f, "{bench} {hands} {waiting} {undrawn}")
            }
            Answer::Refused(refusal) => write!(f, "refused {}", refusal.number()),
            Answer::NotOpened(fault) => match fault.number() {
                Some(number) => write!(f, "refused {number}"),
                None => Ok(()),
            },
            Answer::Unknown => f.write_str("unknown"),
        }
    }
}

impl Answer {
    // The row that is shown, or the row of no values.
    fn row(&self) -> &[u8]
        ensures { result.now ≡ row_shown self.now }
    {
        match self {
            Answer::Shown(_, row) => row.as_slice(),
            _ => &[],
        }
    }
}

// Appends a line with its answer, which is put together in the room that is lent.
#[tactic(auto, using(crate::proofs::Texts::line_pushed))]
pub(crate) fn push_answer(
    out: &mut Vec<u8>,
    room: &mut String,
    line: &[u8],
    answer: &Answer,
) -> Result<(), AllocError>
    ensures { OnOk result (out.new.items ≡ out.old.items ++ line_text line.now (answer_text answer.now)) }
{
    room.clear();
    write!(room, ",{answer},")?;
    push_row(room, answer.row())?;
    room.push('\n')?;
    out.extend_from_slice(line)?;
    out.extend_from_slice(room.as_bytes())?;
    Ok(())
}
