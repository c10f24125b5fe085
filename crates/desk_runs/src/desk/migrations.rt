// An open of a file of the first version, over disks that stop at each of their calls in turn.
// Opened again, also after a loss of power, they have the same register, and their tables are those of one version, whole.
use crate::disks::{Disks, Kept, Migration, NotFound};
use crate::steps::Which;
use adm_register::Register;
use adm_rows::OpenFault;
use std::alloc::Global;
use std::io;

/// An open is stopped at so many calls at most.
const MOST: u64 = 1000;

/// How far an open came where a disk stopped.
#[derive(Clone, Copy, Debug)]
enum Came {
    Opened,
    NotFound(NotFound),
}

fn came_of(found: &Result<Register, NotFound>) -> Came {
    match found {
        Ok(_) => Came::Opened,
        Err(fault) => Came::NotFound(*fault),
    }
}

/// How far an open came where a disk stopped, and what that left.
#[derive(Clone, Copy, Debug)]
struct Stop {
    came: Came,
    /// On the disks as they were written.
    written: Kept,
    /// On the disks after a loss of power, which leaves what was synced.
    synced: Kept,
}

/// Whether an open that came so far may leave this. What was opened is of the second version; a
/// disk that stops is reported as Disk, and as no other error.
fn may_leave(came: Came, left: Kept) -> bool {
    match (came, left) {
        (Came::Opened, Kept::Second) => true,
        (Came::NotFound(NotFound::NoDatabase), Kept::First) => true,
        (Came::NotFound(NotFound::Refused(OpenFault::Disk)), Kept::First | Kept::Second) => true,
        _ => false,
    }
}

impl Stop {
    fn is_opened(&self) -> bool {
        matches!(self.came, Came::Opened)
    }

    fn is_right(&self) -> bool {
        may_leave(self.came, self.written) && may_leave(self.came, self.synced)
    }
}

/// How many stops left which version.
#[derive(Clone, Copy)]
struct Counts {
    first: u64,
    second: u64,
}

impl Counts {
    fn new() -> Counts {
        Counts {
            first: 0,
            second: 0,
        }
    }

    fn add(&mut self, left: Kept) {
        match left {
            Kept::First => self.first = self.first.saturating_add(1),
            Kept::Second => self.second = self.second.saturating_add(1),
            Kept::Neither => {}
        }
    }
}

/// What a stop left at which an open came so far: on the disks as they were written, and after a loss of power.
fn stop_of(
    alloc: Global,
    came: Came,
    (written, synced): (&Disks, &Disks),
    migration: &Migration,
) -> io::Result<Stop> {
    let written = migration.left_on(alloc, written)?;
    let synced = migration.left_on(alloc, synced)?;
    Ok(Stop {
        came,
        written,
        synced,
    })
}

/// What the open comes to where a disk passes so many calls.
fn stopped(
    alloc: Global,
    disks: &Disks,
    migration: &Migration,
    stop: (Which, u64),
) -> io::Result<Stop> {
    let (found, written, synced) = disks.after_open(alloc, stop)?;
    stop_of(alloc, came_of(&found), (&written, &synced), migration)
}

/// Stops the open at each call of a disk, until none stops it or one leaves what it may not.
fn stops_of(
    rt: &impl Print,
    alloc: Global,
    disks: &Disks,
    migration: &Migration,
    disk: Which,
) -> io::Result<()> {
    let mut written = Counts::new();
    let mut synced = Counts::new();
    for calls in 0..MOST {
        let stop = stopped(alloc, disks, migration, (disk, calls))?;
        if !stop.is_right() {
            return println!(rt; "  PROBLEM: {disk:?} at call {calls}: {stop:?}");
        }
        if stop.is_opened() {
            return print_counts(rt, disk, calls, written, synced);
        }
        written.add(stop.written);
        synced.add(stop.synced);
    }
    println!(rt; "  PROBLEM: {disk:?} stops always")
}

fn print_counts(
    rt: &impl Print,
    disk: Which,
    stops: u64,
    written: Counts,
    synced: Counts,
) -> io::Result<()> {
    println!(rt;
        "  {disk:?}: {stops} stops, {} left the first version, {} the second; after a loss of power {} and {}",
        written.first, written.second, synced.first, synced.second
    )
}

/// Stops an open of a file of the first version at each call of each disk, and prints how many stops left which version. The register that it must
/// keep is that of the file that it is judged by.
pub(crate) fn migrations(
    rt: &impl Print,
    alloc: Global,
    disks: &Disks,
    judged_by: &Disks,
) -> io::Result<()> {
    match Migration::of(alloc, judged_by)? {
        None => println!(rt; "  no file of the first version"),
        Some(migration) => {
            stops_of(rt, alloc, disks, &migration, Which::Log)?;
            stops_of(rt, alloc, disks, &migration, Which::Database)
        }
    }
}
