// Calls, made on a book that was opened.
ghost use Rattle.std.specs.Prelude.{◌≡◌, ◌++◌, IfOk, OnOk};
ghost use Rattle.text.specs.Coming.{coming};
ghost use Rattle.book.specs.Histories.{answer, after, showing};
ghost use Rattle.book.specs.State.{state};
ghost use Rattle.trial.specs.Answers.{answer_text, told};
ghost use Rattle.trial.specs.Sessions.{Leaves};
ghost use Rattle.trial.specs.Calls.{call_of, meant};
ghost use Rattle.trial.specs.Lines.{left_by, written, after_line, lines_text};
ghost use Rattle.trial.specs.Lines.{answered as line_answered};

use super::answer::{Answer, push_answer};
use super::call::{Call, NoCall};
use arrayvec::ArrayVec;
use book::book::Book;
use book::refusal::BookRefusal;
use std::alloc::{AllocError, Global};
use text::pieces::Pieces;
use walk::Walk;

#[derive(Drop)]
pub(crate) struct Session<W> {
    pub(crate) heap: Global,
    pub(crate) book: Book<W>,
    // the width of the book's rows
    pub(crate) width: usize,
    // where an answer's text is put together, line after line
    pub(crate) room: String,
}

impl<W> Session<W> {
    // A label with its row, which stands at the front of the tray, or why there is none.
    fn showing(&self, res: Result<u32, BookRefusal>, tray: [u8; 64]) -> Answer
        ensures { answer_text result ≡ told self.now.width (showing res tray) }
    {
        match res {
            Ok(label) => {
                let mut row = ArrayVec::from(tray);
                row.truncate(self.width);
                Answer::Shown(label, row)
            }
            Err(refusal) => Answer::Refused(refusal),
        }
    }
}

impl<W: Walk> Session<W> {
    // Makes the call on the book. `take` and `row` stand out in full: a closure over both would want their clauses again. The tray
    // is as long as the longest row of any walk, so that no memory is asked for.
    fn perform(&mut self, call: &Call) -> Answer
        ensures answer { answer_text result ≡ told self.old.width (answer (state W.Walk.meaning self.old.book) (meant call.now)) }
        ensures after { Leaves W.Walk.meaning self.old self.new (after (state W.Walk.meaning self.old.book) (meant call.now)) }
    {
        let mut tray = [0u8; 64];
        match call {
            Call::Take(printer) => {
                let taken = self.book.take(*printer as usize, &mut tray);
                self.showing(taken, tray)
            }
            Call::Printed(printer, row) => self.book.printed(*printer as usize, row).into(),
            Call::Spoiled(printer) => self.book.spoiled(*printer as usize).into(),
            Call::Row(label) => {
                let found = self.book.row(*label, &mut tray);
                self.showing(found, tray)
            }
            Call::Label(row) => self.book.label(row).into(),
            Call::Counts => Answer::Counted(self.book.counts()),
            Call::Close => self.book.close().into(),
        }
    }

    // What is answered to a line.
    fn answered(&mut self, line: &[u8]) -> Result<Answer, AllocError>
        ensures answer { IfOk result (λ a. answer_text a ≡ line_answered self.old.width (state W.Walk.meaning self.old.book) (call_of line.now)) }
        ensures after { OnOk result (Leaves W.Walk.meaning self.old self.new (left_by (state W.Walk.meaning self.old.book) (call_of line.now))) }
    {
        match Call::of(self.heap, line) {
            Ok(call) => Ok(self.perform(&call)),
            Err(NoCall::Unknown) => Ok(Answer::Unknown),
            Err(NoCall::NoMemory) => Err(AllocError),
        }
    }

    // Appends what a line gives: a comment is written as it is, and a call with its answer.
    fn push_line(&mut self, out: &mut Vec<u8>, line: &[u8]) -> Result<(), AllocError>
        ensures text { OnOk result (out.new.items ≡ out.old.items ++ written self.old.width (state W.Walk.meaning self.old.book) line.now) }
        ensures after { OnOk result (Leaves W.Walk.meaning self.old self.new (after_line (state W.Walk.meaning self.old.book) line.now)) }
    {
        match line {
            [] => {}
            [b'#', ..] => {
                out.extend_from_slice(line)?;
                out.push(b'\n')?;
            }
            _ => {
                let answer = self.answered(line)?;
                push_answer(out, &mut self.room, line, &answer)?;
            }
        }
        Ok(())
    }

    // Appends what the lines give, from the first call to the last.
    pub(crate) fn push_lines(
        &mut self,
        out: &mut Vec<u8>,
        lines: Pieces<'_>,
    ) -> Result<(), AllocError>
        ensures { OnOk result (out.new.items ≡ out.old.items ++ lines_text self.old.width (state W.Walk.meaning self.old.book) (coming lines.entry)) }
    {
        for line in lines {
            self.push_line(out, line)?;
        }
        Ok(())
    }
}
