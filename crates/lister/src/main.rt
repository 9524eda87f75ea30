// Lists the rows of a plan text, or tells its fault.
#![tactic(auto)]

use listing::report;
use std::io;
use std::io::Read;

// One more byte than the longest text that is read: a text that has them all is too long.
const ROOM: usize = 4097;

fn main(rt: HostRuntime) -> io::Result<()> {
    let heap = rt.alloc();
    // All the room at once, so that the first read may bring the whole text: an input that comes in packets would lose the rest.
    let mut text = Vec::with_capacity(heap, ROOM)?;
    rt.stdin().take(ROOM as u64).read_to_end(&mut text)?;
    rt.print(report(heap, &text)?)
}
