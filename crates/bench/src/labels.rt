// Rows at labels that are spread over a walk.
use walk::Walk;
use walk::answers::Refusal;

// The label that is looked up in a turn: steps by a large prime go all over the walk.
fn spread(turn: u32, size: u32) -> u32 {
    (u64::from(turn) * 2_654_435_761 % u64::from(size.max(1))) as u32
}

// Reads the row at a label.
fn read_at<W: Walk>(walk: &mut W, label: u32, tray: &mut [u8]) -> Result<(), Refusal> {
    walk.seek(label)?;
    walk.read(tray)
}

// Reads the row at a label for each turn; the sum of the rows' first values.
pub(crate) fn read_through<W: Walk>(walk: &mut W, turns: u32) -> u64 {
    let size = walk.size();
    let mut tray = [0u8; 64];
    let mut sum = 0u64;
    for turn in 0..turns {
        if read_at(walk, spread(turn, size), &mut tray).is_ok() {
            sum = sum.wrapping_add(u64::from(tray[0]));
        }
    }
    sum
}

// Reads the row at a label for each turn, and finds it; how many had that label.
pub(crate) fn found_again<W: Walk>(walk: &mut W, turns: u32) -> u32 {
    let size = walk.size();
    let width = walk.width().min(64);
    let mut tray = [0u8; 64];
    let mut found = 0u32;
    for turn in 0..turns {
        let label = spread(turn, size);
        if read_at(walk, label, &mut tray).is_ok() && walk.find(&tray[..width]) == Ok(label) {
            found = found.saturating_add(1);
        }
    }
    found
}
