// The calls as a line writes them.
ghost use Rattle.std.specs.Prelude.{◌≡◌, vec_items};
ghost use Rattle.std.specs.Option.{ok_or};
ghost use Rattle.text.specs.Coming.{coming};
ghost use Rattle.trial.specs.Calls.{lone_number, printers_of, print_of, call_of, meant, Reads};
ghost use Rattle.trial.specs.Calls.{scanned as row_scanned, bare as call_bare};
ghost use Rattle.trial.specs.declared.call.NoCall.TheVariants.{Unknown, NoMemory};

use super::number::{number, value};
use super::verb::Verb;
use std::alloc::{AllocFailed, Global};
use text::pieces::Pieces;

#[derive(Drop)]
pub(crate) enum Call {
    Take(u32),
    Printed(u32, Vec<u8>),
    Spoiled(u32),
    Row(u32),
    Label(Vec<u8>),
    Counts,
    Close,
}

// Why a line gave no call.
#[derive(Clone, Copy, PartialEq, Eq, Debug)]
pub(crate) enum NoCall {
    Unknown,
    NoMemory,
}

// Written out, since a derived conversion promises no value.
impl<T: Drop> From<AllocFailed<T>> for NoCall {
    ghost from_gives = { λ _ r. r ≡ NoMemory };

    fn from(_e: AllocFailed<T>) -> NoCall {
        NoCall::NoMemory
    }
}

// The number that is the one field to come.
fn lone_number(mut fields: Pieces<'_>) -> Option<u32>
    ensures { result ≡ lone_number (coming fields.entry) }
{
    match (fields.next(), fields.next()) {
        (Some(field), None) => number(field),
        _ => None,
    }
}

// The number of printers, where the line opens a book.
pub(crate) fn printers(line: &[u8]) -> Option<u32>
    ensures { result ≡ printers_of line.now }
{
    let mut fields = Pieces::new(line, b' ');
    if fields.next()? != b"open".as_slice() {
        return None;
    }
    lone_number(fields)
}

// The row of all the values to come.
#[tactic(auto, using(crate::proofs::Scans::scan_more, crate::proofs::Scans::scan_stops, crate::proofs::Scans::scan_done))]
fn scanned(heap: Global, fields: Pieces<'_>) -> Result<Vec<u8>, NoCall>
    ensures { Reads vec_items result (row_scanned (coming fields.entry)) }
{
    // A loop with `?` reads as plainly as a chain that ends in `try_collect`.
    let mut row = Vec::new(heap);
    for field in fields {
        row.push(value(field).ok_or(NoCall::Unknown)?)?;
    }
    Ok(row)
}

// A printer, and the row of the values behind it.
fn printed(heap: Global, mut fields: Pieces<'_>) -> Result<Call, NoCall>
    ensures { Reads meant result (print_of (coming fields.entry)) }
{
    let printer = fields.next().and_then(number).ok_or(NoCall::Unknown)?;
    Ok(Call::Printed(printer, scanned(heap, fields)?))
}

// The call, where no field is to come.
fn bare(call: Call, mut fields: Pieces<'_>) -> Result<Call, NoCall>
    ensures { Reads meant result (call_bare (meant call) (coming fields.entry)) }
{
    match fields.next() {
        Some(_) => Err(NoCall::Unknown),
        None => Ok(call),
    }
}

impl Call {
    // The call that the line writes.
    pub(crate) fn of(heap: Global, line: &[u8]) -> Result<Call, NoCall>
        ensures { Reads meant result (call_of line.now) }
    {
        let mut fields = Pieces::new(line, b' ');
        let verb = fields.next().and_then(Verb::of);
        match verb.ok_or(NoCall::Unknown)? {
            Verb::Take => lone_number(fields).map(Call::Take).ok_or(NoCall::Unknown),
            Verb::Printed => printed(heap, fields),
            Verb::Spoiled => lone_number(fields)
                .map(Call::Spoiled)
                .ok_or(NoCall::Unknown),
            Verb::Row => lone_number(fields).map(Call::Row).ok_or(NoCall::Unknown),
            Verb::Label => scanned(heap, fields).map(Call::Label),
            Verb::Counts => bare(Call::Counts, fields),
            Verb::Close => bare(Call::Close, fields),
        }
    }
}
