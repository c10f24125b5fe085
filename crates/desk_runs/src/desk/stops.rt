// An act over disks that stop at each of their calls in turn, and sent again after that.
// Opened again, also after a loss of power, they have the register before the act or the one after it, and the same act
// comes to what it comes to there.
use crate::desk::acts::{Came, Doing};
use crate::disks::{Disks, Ends, Left};
use crate::steps::{Act, Which};
use adm_rows::OpenFault;
use adm_store::CreateFault;
use std::alloc::Global;
use std::io;

/// An act is stopped at so many calls at most.
const MOST: u64 = 1000;

/// Which register a stop left on disks, and how far the same act comes over it when it is sent again.
#[derive(Clone, Copy, Debug)]
struct Found {
    left: Left,
    again: Came,
}

/// How far an act came where a disk stopped, and what that left.
#[derive(Clone, Copy, Debug)]
struct Stop {
    came: Came,
    /// On the disks as they were written.
    written: Found,
    /// On the disks after a loss of power, which leaves what was synced.
    synced: Found,
}

impl Stop {
    fn is_done(&self) -> bool {
        matches!(self.came, Came::Created | Came::Done(_))
    }

    fn is_right(&self, turns: &Turns) -> bool {
        may_leave(self.came, self.written.left)
            && may_leave(self.came, self.synced.left)
            && turns.are_kept(self.written)
            && turns.are_kept(self.synced)
    }
}

/// What is found of the disks before an act, and how far the same act comes over the register after it.
#[derive(Clone, Copy)]
struct Turns {
    before: Found,
    second: Came,
}

impl Turns {
    fn of(alloc: Global, disks: &Disks, act: &Act, ends: &Ends) -> io::Result<Turns> {
        let (again, after) = sent(alloc, disks, act)?;
        let left = ends.left_on(alloc, disks)?;
        Turns::over(alloc, Found { left, again }, &after, act)
    }

    fn over(alloc: Global, before: Found, after: &Disks, act: &Act) -> io::Result<Turns> {
        let second = again(alloc, after, act)?;
        Ok(Turns { before, second })
    }

    /// Whether the act that was sent again came as far as it does over the register that was found.
    fn are_kept(&self, found: Found) -> bool {
        match found.left {
            Left::Before => found.again == self.before.again,
            Left::After => found.again == self.second,
            Left::Both | Left::Neither => false,
        }
    }

    fn print(&self, rt: &impl Print) -> io::Result<()> {
        println!(rt; "  {:?}, and then {:?}", self.before.again, self.second)
    }
}

/// Whether an act that came so far may leave this. Done is kept; what failed was done or was not. A
/// disk that stops is reported as Disk, and as no other error.
fn may_leave(came: Came, left: Left) -> bool {
    match (came, left) {
        (Came::Created | Came::Done(_), Left::After) => true,
        (Came::NotCreated(CreateFault::Disk) | Came::Failed, Left::Before | Left::After) => true,
        (Came::NoDatabase | Came::NotOpened(OpenFault::Disk), Left::Before) => true,
        _ => false,
    }
}

/// How many stops left which register.
#[derive(Clone, Copy)]
struct Counts {
    before: u64,
    after: u64,
}

impl Counts {
    fn new() -> Counts {
        Counts {
            before: 0,
            after: 0,
        }
    }

    fn add(&mut self, left: Left) {
        match left {
            Left::Before => self.before = self.before.saturating_add(1),
            Left::After => self.after = self.after.saturating_add(1),
            Left::Both | Left::Neither => {}
        }
    }
}

/// How far an act comes that nothing stops, and the disks after it.
fn sent(alloc: Global, disks: &Disks, act: &Act) -> io::Result<(Came, Disks)> {
    let (came, disks) = disks.after(alloc, None, &Doing { act })?;
    Ok((came.unwrap_or(Came::NoDatabase), disks))
}

/// How far an act comes that nothing stops.
fn again(alloc: Global, disks: &Disks, act: &Act) -> io::Result<Came> {
    let (came, _disks) = sent(alloc, disks, act)?;
    Ok(came)
}

/// What a stop of the act left on these disks.
fn found_on(alloc: Global, disks: &Disks, act: &Act, ends: &Ends) -> io::Result<Found> {
    let left = ends.left_on(alloc, disks)?;
    let again = again(alloc, disks, act)?;
    Ok(Found { left, again })
}

/// What a stop left on these disks, where it is known of the disks before. The same disks come to the
/// same, so it is looked for once.
fn found_after(
    alloc: Global,
    disks: &Disks,
    before: &Disks,
    known: &Found,
    act: &Act,
    ends: &Ends,
) -> io::Result<Found> {
    if disks.is_same(before) {
        return Ok(*known);
    }
    found_on(alloc, disks, act, ends)
}

/// What a stop left at which an act came so far: on the disks as they were written, and after a loss of power.
fn stop_of(
    alloc: Global,
    came: Came,
    (written, synced): (&Disks, &Disks),
    disks: &Disks,
    known: &Found,
    act: &Act,
    ends: &Ends,
) -> io::Result<Stop> {
    let written = found_after(alloc, written, disks, known, act, ends)?;
    let synced = found_after(alloc, synced, disks, known, act, ends)?;
    Ok(Stop {
        came,
        written,
        synced,
    })
}

/// What the act comes to where a disk passes so many calls.
fn stopped(
    alloc: Global,
    disks: &Disks,
    known: &Found,
    act: &Act,
    ends: &Ends,
    stop: (Which, u64),
) -> io::Result<Stop> {
    let (came, written, synced) = disks.after_stop(alloc, stop, &Doing { act })?;
    let came = came.unwrap_or(Came::NoDatabase);
    stop_of(alloc, came, (&written, &synced), disks, known, act, ends)
}

/// Stops the act at each call of a disk, until none stops it or one leaves what it may not.
fn stops_of(
    rt: &impl Print,
    alloc: Global,
    disks: &Disks,
    act: &Act,
    ends: &Ends,
    turns: &Turns,
    disk: Which,
) -> io::Result<()> {
    let mut written = Counts::new();
    let mut synced = Counts::new();
    for calls in 0..MOST {
        let stop = stopped(alloc, disks, &turns.before, act, ends, (disk, calls))?;
        if !stop.is_right(turns) {
            return println!(rt; "  PROBLEM: {disk:?} at call {calls}: {stop:?}");
        }
        if stop.is_done() {
            return print_counts(rt, disk, calls, written, synced);
        }
        written.add(stop.written.left);
        synced.add(stop.synced.left);
    }
    println!(rt; "  PROBLEM: {disk:?} stops always")
}

fn print_counts(
    rt: &impl Print,
    disk: Which,
    stops: u64,
    written: Counts,
    synced: Counts,
) -> io::Result<()> {
    println!(rt;
        "  {disk:?}: {stops} stops, {} left the register before, {} the one after; after a loss of power {} and {}",
        written.before, written.after, synced.before, synced.after
    )
}

/// Stops the act at each call of each disk, and sends it again. Prints how far it comes where nothing stops it, and then once more, and
/// how many stops left which register. The one after it is that of the other act.
pub(crate) fn stops(
    rt: &impl Print,
    alloc: Global,
    disks: &Disks,
    act: &Act,
    other: &Act,
) -> io::Result<()> {
    match Ends::of(alloc, disks, other)? {
        None => println!(rt; "  there is no register after it"),
        Some(ends) => {
            let turns = Turns::of(alloc, disks, act, &ends)?;
            turns.print(rt)?;
            stops_of(rt, alloc, disks, act, &ends, &turns, Which::Log)?;
            stops_of(rt, alloc, disks, act, &ends, &turns, Which::Database)
        }
    }
}
