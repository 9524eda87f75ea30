// Runs a day's calls on the book of one trial. Standard input has a plan text, a line `open K`, and then a call on each line;
// standard output has each call with its answer, or the fault of the plan.
#![tactic(auto)]

mod answer;
mod call;
mod day;
mod number;
mod run;
mod session;
mod verb;

use day::written;
use std::io;
use std::io::{Read, Write};

fn main(rt: HostRuntime) -> io::Result<()> {
    let heap = rt.alloc();
    let mut input = Vec::new(heap);
    rt.stdin().read_to_end(&mut input)?;
    rt.stdout().write_all(&written(heap, &input)?)
}
