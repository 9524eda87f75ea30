// A whole day: the plan, and the calls.
ghost use Rattle.std.specs.Prelude.{◌≡◌, ◌≤◌, length, IfSome, IfOk};
ghost use Rattle.std.specs.List.{find, range_with_len};
ghost use Rattle.text.specs.Pieces.{pieces};
ghost use Rattle.trial.specs.Day.{first_opens, opens_at, plan_length, day_text};
ghost use Rattle.trial.specs.Written.{CallLinesLaws};

use super::run::run;
use listing::tell;
use plan::read::read;
use std::alloc::{AllocError, Global};
use text::pieces::Pieces;

// Whether the first line of the text is `open`, or begins with it and a blank.
fn opens(text: &[u8]) -> bool
    ensures { result ≡ first_opens (pieces 10 text.now) }
{
    let line = Pieces::new(text, b'\n').next();
    let word = line.and_then(|line| Pieces::new(line, b' ').next());
    word == Some(b"open".as_slice())
}

// Whether a line begins at the place, and opens a book.
#[tactic(auto, using(std::proofs::lemmas::List::take_rest))]
fn opens_at(input: &[u8], place: usize) -> bool
    requires { place ≤ length input.now }
    ensures { result ≡ opens_at input.now place }
{
    (place == 0 || input[place - 1] == b'\n') && opens(&input[place..])
}

// The place of the first line that opens a book.
fn opening(input: &[u8]) -> Option<usize>
    ensures first { result ≡ find (opens_at input.now) (range_with_len 0 (length input.now)) }
    ensures bound { IfSome result (λ place. place ≤ length input.now) }
{
    (0..input.len()).find(|place| opens_at(input, *place))
}

// How many bytes stand before it, or in all.
#[tactic(auto, using(crate::proofs::Openings::opening_found))]
fn plan_length(input: &[u8]) -> usize
    ensures value { result ≡ plan_length input.now }
    ensures bound { result ≤ length input.now }
{
    opening(input).unwrap_or(input.len())
}

// What is written of a day: its calls with their answers, or the fault of its plan. A line is read as a call exactly where it
// writes one.
#[tactic(auto, using(crate::proofs::CallLines::call_lines_laws))]
pub(crate) fn written(heap: Global, input: &[u8]) -> Result<Vec<u8>, AllocError>
    ensures text { IfOk result (λ v. v.items ≡ day_text input.now) }
    ensures lines { CallLinesLaws }
{
    let (text, calls) = input.split_at(plan_length(input));
    match read(heap, text) {
        Ok(walk) => run(heap, walk, calls),
        Err(fault) => Ok(tell(heap, fault)?.into_bytes()),
    }
}
