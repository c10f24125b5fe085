// Allots the places of all small problems and of drawn ones, or those of one market.
// Without arguments it prints what `offers` and `what_if` give, as counts and checksums of blocks, and where a plain scan gives anything
// else. With a size as its arguments (entrants, wishes, schools) it allots that market alone, and prints the microseconds that it took.
#![tactic(auto)]

mod drawn;
mod market;
mod outcomes;
mod posed;
mod scan;
mod small;
mod tables;

use adm_match::{Offers, offers};
use adm_types::ChildNo;
use market::{Size, codes, entrants, problem, seats};
use std::time::Instant;
use std::{env, io};

/// The given schools, mixed into one number.
fn checksum(given: &Offers, size: Size) -> u64 {
    let mut sum: u64 = 0;
    for number in 0..size.entrants {
        sum = sum.wrapping_mul(31).wrapping_add(1);
        let Some(child) = ChildNo::new(number.wrapping_add(1)) else {
            continue;
        };
        let Some(school) = given.of(child) else {
            continue;
        };
        for byte in school.as_str().as_bytes() {
            sum = sum.wrapping_mul(31).wrapping_add(u64::from(*byte));
        }
    }
    sum
}

fn number(rt: &HostRuntime, index: usize) -> io::Result<Option<u32>> {
    match env::args(rt)?.nth(index) {
        Some(word) => Ok(word.as_str().parse::<u32>().ok()),
        None => Ok(None),
    }
}

fn size(rt: &HostRuntime) -> io::Result<Option<Size>> {
    let (entrants, wishes, schools) = (number(rt, 1)?, number(rt, 2)?, number(rt, 3)?);
    match (entrants, wishes, schools) {
        (Some(entrants), Some(wishes), Some(schools)) => Ok(Some(Size {
            entrants,
            wishes,
            schools,
        })),
        _ => Ok(None),
    }
}

fn run(rt: &HostRuntime, size: Size) -> io::Result<()> {
    let alloc = rt.alloc();
    let codes = codes(alloc, size)?;
    let entrants = entrants(alloc, &codes, size)?;
    let seats = seats(alloc, &codes, size)?;
    let start = Instant::now(rt)?;
    let Ok(problem) = problem(alloc, entrants, seats) else {
        return println!(rt; "no problem");
    };
    let posed = start.elapsed(rt)?.as_micros();
    let start = Instant::now(rt)?;
    let given = offers(alloc, &problem)?;
    let allotted = start.elapsed(rt)?.as_micros();
    let sum = checksum(&given, size);
    let proposals = given.proposals();
    println!(rt; "checksum {sum}, proposals {proposals}")?;
    println!(rt; "posed {posed}, allotted {allotted}")
}

fn main(rt: HostRuntime) -> io::Result<()> {
    match size(&rt)? {
        Some(size) => run(&rt, size),
        None => outcomes::run(&rt),
    }
}
