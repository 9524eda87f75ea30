// How long a label to its row, a row to its label, and a draw with its print take: on walks of few and of many rows, of one
// width but for `changes`, and for one printer and for sixteen. With the word `untimed` it tells how many of the calls were
// right, and no times.
#![tactic(auto)]

mod labels;
mod prints;

use book::book::Book;
use labels::{found_again, read_through};
use plan::read::{Plan, read};
use prints::printed;
use std::time::{Duration, Instant};
use std::{env, io};
use walk::Walk;

// Each part is a plan of its own.
const PARTS: [&str; 8] = [
    "gray,31,-,2 2 2 2 1 1 1 1 1 1 1 1 1 1 1 1 1 1 1 1 1 1 1 1 1 1 1 1 1 1 1",
    "gray,31,-,2 2 2 2 2 2 2 2 2 2 2 2 2 2 2 2 2 2 2 2 2 2 2 2 2 2 2 2 2 2 2",
    "door,32,2,-",
    "door,32,16,-",
    "words,2,-,31 1",
    "words,2,-,16 16",
    "changes,6,-,-",
    "changes,12,-,-",
];

// How many labels are looked up, and how many rows are drawn where there are as many.
const TURNS: u32 = 100_000;

// How many nanoseconds one of so many turns took.
fn each(took: Duration, turns: u32) -> u128 {
    took.as_nanos() / u128::from(turns.max(1))
}

// The walk of the part alone.
fn plan_of(rt: &HostRuntime, part: &str) -> io::Result<Plan> {
    let text = format!(in rt.alloc(); "kind,n,t,list\n{part}\n")?;
    read(rt.alloc(), text.as_bytes()).map_err(|_| io::Error::from(io::ErrorKind::InvalidData))
}

// Draws and prints rows of the part on a book with so many printers.
fn tell_prints(rt: &HostRuntime, part: &str, printers: usize, timed: bool) -> io::Result<()> {
    let plan = plan_of(rt, part)?;
    let (width, turns) = (plan.width(), plan.size().min(TURNS));
    let Ok(mut book) = Book::open(plan, printers, rt.alloc()) else {
        return Err(io::Error::from(io::ErrorKind::OutOfMemory));
    };
    let start = Instant::now(rt)?;
    let rows = printed(&mut book, printers, width, turns);
    let took = start.elapsed(rt)?;
    print!(rt; ", {rows} of {turns} printed by {printers}")?;
    if timed {
        print!(rt; " ({} ns each)", each(took, turns))?;
    }
    Ok(())
}

// Looks up labels of the part, forth and back, and then prints.
fn tell(rt: &HostRuntime, part: &str, timed: bool) -> io::Result<()> {
    let mut plan = plan_of(rt, part)?;
    let start = Instant::now(rt)?;
    let sum = read_through(&mut plan, TURNS);
    let read = start.elapsed(rt)?;
    let start = Instant::now(rt)?;
    let found = found_again(&mut plan, TURNS);
    let both = start.elapsed(rt)?;
    print!(rt;
        "{part}: {} rows, {found} of {TURNS} found again",
        plan.size()
    )?;
    if timed {
        let (read, both) = (each(read, TURNS), each(both, TURNS));
        print!(rt; " (row {read} ns, row and label {both} ns, sum {sum})")?;
    }
    tell_prints(rt, part, 1, timed)?;
    tell_prints(rt, part, 16, timed)?;
    println!(rt; "")
}

fn main(rt: HostRuntime) -> io::Result<()> {
    let timed = !env::args(&rt)?.any(|word| word.as_str() == "untimed");
    for part in PARTS {
        tell(&rt, part, timed)?;
    }
    Ok(())
}
