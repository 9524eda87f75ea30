// Plain changes: the row at a label, the label of a row, and how many rows there are. The rows of n values come in
// sweeps, one for each row of one value less, in which the value n - 1 is put into each position of that row: the row
// at a label l stands at the place l % n of the sweep l / n.
ghost use Rattle.std.specs.Prelude.{◌≡◌, ℕ, ◌-◌, ◌<◌, ◌≤◌, [], ◌∷◌, ◌++◌, length, take, if◌then◌else◌, MatchOption, ◌≢◌, slice_index};
ghost use Rattle.std.specs.List.{insert, remove};
ghost use Rattle.walk.specs.Rows.{row_at, label_of, odd};
ghost use Rattle.kinds.specs.Counts.{counted};
ghost use Rattle.kinds.specs.Lists.{changes};

use super::levels::count_product;
use arrayvec::ArrayVec;

// The number of orders of n values, or `None` where a walk may not have as many.
pub(crate) fn count_changes(n: u16) -> Option<u32>
    ensures { result ≡ counted (length (changes n)) }
{
    count_product(1..=u32::from(n))
}

// The position of the value `last` at a place in a sweep, or the place at which it has a position: one tells the other
// in the same way. An odd sweep goes to the right, and an even one to the left.
fn swept(last: u32, sweep: u32, place: u32) -> u32
    requires { place ≤ last }
    ensures { result ≡ (if odd sweep then place else last - place) }
{
    if sweep % 2 == 1 { place } else { last - place }
}

// Puts a value in at a position; the last value of the row makes room for it.
fn put_in(row: &mut [u8], at: usize, value: u8)
    requires { at < length row.old }
    ensures { row.new ≡ insert (take (length row.old - 1) row.old) at value }
{
    let last = row.len() - 1;
    row[last] = value;
    row[at..].rotate_right(1);
}

// Takes the value at a position out, to the end of the row.
fn take_out(row: &mut [u8], at: usize)
    requires { at < length row.old }
    ensures { row.new ≡ remove row.old at ++ (slice_index row.old at ∷ []) }
{
    row[at..].rotate_left(1);
}

// A position at which a value stands, or `None` where there is none. Row values are looked at by a loop with an index: a rule of
// the project.
fn position_of(row: &[u8], value: u8) -> Option<usize>
    ensures { MatchOption result ((k : ℕ) → k < length row.now → slice_index row.now k ≢ value) (λ k. (k < length row.now) × (slice_index row.now k ≡ value)) }
{
    for (k, x) in row.iter().enumerate() {
        if *x == value {
            return Some(k);
        }
    }
    None
}

// Writes the row at a label among the orders of as many values as the tray has room for.
pub(crate) fn write_changes(label: u32, tray: &mut [u8])
    requires narrow { length tray.old ≤ 32 }
    requires listed { label < length (changes (length tray.old)) }
    ensures { tray.new ≡ row_at (changes (length tray.old)) label }
{
    let size = tray.len() as u32;
    if size == 0 {
        return;
    }
    let last = size - 1;
    let sweep = label / size;
    write_changes(sweep, &mut tray[..last as usize]);
    let position = swept(last, sweep, label % size);
    put_in(tray, position as usize, last as u8);
}

// The label of a row among the orders of as many values; the row is taken apart.
fn unwind(row: &mut [u8]) -> Option<u32>
    requires { length row.old ≤ 12 }
    ensures { result ≡ label_of (changes (length row.old)) row.old }
{
    let size = row.len();
    if size == 0 {
        return Some(0);
    }
    let last = size - 1;
    let position = position_of(row, last as u8)?;
    take_out(row, position);
    let sweep = unwind(&mut row[..last])?;
    let place = swept(last as u32, sweep, position as u32);
    Some(sweep * size as u32 + place)
}

// The label of a row among the orders of as many values, or `None` where it is no such order.
pub(crate) fn find_changes(row: &[u8]) -> Option<u32>
    requires { length row.now ≤ 12 }
    ensures { result ≡ label_of (changes (length row.now)) row.now }
{
    // `find` asks for no memory, so the copy stands in a vector of fixed capacity.
    let mut copy: ArrayVec<u8, 12> = ArrayVec::try_from(row).unwrap();
    unwind(&mut copy)
}
