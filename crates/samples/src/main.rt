// Compares what the library says with rows and faults from outside. Each line of standard input has a plan text, in which
// `~` stands for the byte 10 and `^` for the byte 200, and then, each after a `|`, what is to hold of it:
//   N,L,LAYER    the text is refused with that number, line and layer
//   size:N       the walk has so many rows
//   steady:yes   it is steady, or not: steady:no
//   L:V V V      the row at the label L is V V V, and the label of V V V is L
//   none:V V V   no row is V V V
//   report:TEXT  the lister writes just TEXT, with `~` for the byte 10
#![tactic(auto)]

mod check;
mod sample;
mod tally;

use sample::run;
use std::io;
use std::io::Read;
use tally::Tally;
use text::pieces::Pieces;

fn main(rt: HostRuntime) -> io::Result<()> {
    let heap = rt.alloc();
    let mut all = Vec::new(heap);
    rt.stdin().read_to_end(&mut all)?;
    let mut tally = Tally::default();
    for (i, line) in Pieces::new(&all, b'\n').enumerate() {
        if !line.is_empty() && !run(heap, line, &mut tally)? {
            println!(rt; "line {}: not as expected", i + 1)?;
        }
    }
    println!(rt; "{tally}")
}
