//! A script of a desk in memory, step by step as the input says, over disks that stop and crash.
//!
//! A line of the input is a step, a remark (`#`) or empty; it is printed as it is, and below it, set in, what the step came to.
#![tactic(auto)]

mod desk;
mod disks;
mod registers;
mod steps;
mod streams;

use desk::Bench;
use std::io::{self, BufRead, BufReader};

fn main(rt: HostRuntime) -> io::Result<()> {
    let alloc = rt.alloc();
    let mut bench = Bench::new(alloc);
    for line in BufReader::new(alloc, rt.reader())?.lines(alloc) {
        let line = line?;
        println!(rt; "{line}")?;
        if !line.is_empty() && !line.starts_with('#') {
            bench.take(&rt, &line)?;
        }
    }
    Ok(())
}
