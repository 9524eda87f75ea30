// One thing that is to hold of a walk.
use arrayvec::ArrayVec;
use text::digits::decimal;
use text::pieces::Pieces;
use walk::Walk;

// The values, which have one blank between them; none where one is no number up to 255, or there are more than a row has.
fn row_of(values: &[u8]) -> Option<ArrayVec<u8, 64>> {
    let mut row = ArrayVec::new();
    if values.is_empty() {
        return Some(row);
    }
    for value in Pieces::new(values, b' ') {
        row.try_push(u8::try_from(decimal(value)?).ok()?).ok()?;
    }
    Some(row)
}

// Whether the row at the label has the values, and the label is that of the row.
fn row_is<W: Walk>(walk: &mut W, label: u32, values: &[u8]) -> Option<bool> {
    let expected = row_of(values)?;
    // No memory is asked for: no row is wider than 64.
    let mut tray = [0u8; 64];
    walk.seek(label).ok()?;
    walk.read(&mut tray).ok()?;
    let row = tray.get(..walk.width())?;
    Some(row == expected.as_slice() && walk.find(row) == Ok(label))
}

// Whether no row has the values.
fn row_is_none<W: Walk>(walk: &W, values: &[u8]) -> Option<bool> {
    let row = row_of(values)?;
    Some(walk.find(row.as_slice()).is_err())
}

// Whether the claim holds of the walk; none where it is no claim.
fn claimed<W: Walk>(walk: &mut W, claim: &[u8]) -> Option<bool> {
    let mut parts = Pieces::new(claim, b':');
    let (subject, values) = (parts.next()?, parts.next()?);
    match subject {
        b"none" => row_is_none(walk, values),
        b"size" => Some(decimal(values) == Some(walk.size())),
        b"steady" => Some(walk.steady() == (values == b"yes".as_slice())),
        _ => row_is(walk, decimal(subject)?, values),
    }
}

// Whether it is a claim, and holds of the walk.
pub(crate) fn holds<W: Walk>(walk: &mut W, claim: &[u8]) -> bool {
    claimed(walk, claim).unwrap_or(false)
}
