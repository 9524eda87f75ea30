// The lines of calls, from opening the book on.
ghost use Rattle.std.specs.Prelude.{◌≡◌, ◌++◌, IfOk, OnOk};
ghost use Rattle.text.specs.Coming.{coming};
ghost use Rattle.text.specs.Pieces.{pieces};
ghost use Rattle.trial.specs.Calls.{printers_of};
ghost use Rattle.trial.specs.Lines.{trial_text, run_text};

use super::answer::{Answer, push_answer};
use super::call::printers;
use super::session::Session;
use book::book::Book;
use book::refusal::OpeningFault;
use std::alloc::{AllocError, Global};
use text::pieces::Pieces;
use walk::Walk;

// Opens a book as the line says, and appends what that and the lines behind it give.
fn push_trial<W: Walk + Drop>(
    out: &mut Vec<u8>,
    walk: W,
    opening: &[u8],
    lines: Pieces<'_>,
) -> Result<(), AllocError>
    ensures { OnOk result (out.new.items ≡ out.old.items ++ trial_text (W.Walk.meaning walk) opening.now (printers_of opening.now) (coming lines.entry)) }
{
    let heap = *out.allocator();
    let rows = walk.size();
    let width = walk.width();
    let mut room = String::new(heap);
    let Some(printers) = printers(opening) else {
        return push_answer(out, &mut room, opening, &Answer::Unknown);
    };
    match Book::open(walk, printers as usize, heap) {
        Ok(book) => {
            push_answer(out, &mut room, opening, &Answer::Number(rows))?;
            let mut session = Session {
                heap,
                book,
                width,
                room,
            };
            session.push_lines(out, lines)
        }
        Err(refused) => match refused.fault {
            OpeningFault::NoMemory => Err(AllocError),
            fault => push_answer(out, &mut room, opening, &Answer::NotOpened(fault)),
        },
    }
}

// What is written of the calls: the names, and what each line gives. The first line opens the book, unless there are none.
pub(crate) fn run<W: Walk + Drop>(
    heap: Global,
    walk: W,
    calls: &[u8],
) -> Result<Vec<u8>, AllocError>
    ensures { IfOk result (λ v. v.items ≡ run_text (W.Walk.meaning walk) (pieces 10 calls.now)) }
{
    let mut out = Vec::from_slice(heap, b"call,answer,row\n")?;
    let mut lines = Pieces::new(calls, b'\n');
    if let Some(opening @ [_, ..]) = lines.next() {
        push_trial(&mut out, walk, opening, lines)?;
    }
    Ok(out)
}
