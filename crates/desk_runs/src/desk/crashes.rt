// A run of commands over disks that stop, a crash of both, and what the start after it finds.

use crate::disks::{Disks, calls_until};
use crate::registers::print_register;
use crate::steps::Which;
use adm_crashes::{CrashOutcome, NotHandled, run_until_crash};
use adm_desk::Answer;
use adm_register::{Register, Rows};
use adm_rows::OpenFault;
use adm_types::Command;
use adm_wire::read_command;
use sqlite::{FileStore, Files};
use sqlite_disk::{Fuse, Memory};
use std::alloc::Global;
use std::{io, str};

/// The commands of an input. `None` where a line is none.
fn commands_of(alloc: Global, input: &[u8]) -> io::Result<Option<Vec<Command>>> {
    let mut commands = Vec::new(alloc);
    let Ok(text) = str::from_utf8(input) else {
        return Ok(None);
    };
    for line in text.lines() {
        let Ok(command) = read_command(alloc, line.as_bytes()) else {
            return Ok(None);
        };
        commands.push(command)?;
    }
    Ok(Some(commands))
}

/// The answers, and what the start after the crash finds; or why no command was handled, and what is left.
type Ran = Result<CrashOutcome<FileStore<Fuse<Memory>>>, NotHandled<Fuse<Memory>>>;

/// Runs the commands over files that hold what the disks hold, and stop after so many calls. `None`: such files cannot be used.
fn run(
    alloc: Global,
    files: Files<Memory>,
    (log_calls, db_calls): (u64, u64),
    commands: Vec<Command>,
) -> Option<Ran> {
    let Files { log, db } = files;
    let files = Files {
        log: Fuse::new(log, log_calls),
        db: Fuse::new(db, db_calls),
    };
    if files.may_be_used() {
        Some(run_until_crash(alloc, files, commands))
    } else {
        None
    }
}

/// The rows of the register that was found.
fn rows_of(alloc: Global, restarted: &CrashOutcome<FileStore<Fuse<Memory>>>) -> Option<Rows> {
    match &restarted.opened {
        Ok(desk) => match desk.register() {
            Some(register) => register.rows(alloc).ok(),
            None => None,
        },
        Err(_) => None,
    }
}

fn print_found(rt: &impl Print, alloc: Global, rows: Option<Rows>) -> io::Result<()> {
    let Some(rows) = rows else {
        return println!(rt; "  PROBLEM: no register was found");
    };
    match Register::from_rows(alloc, rows) {
        Ok(register) => print_register(rt, alloc, &register),
        Err(fault) => println!(rt; "  PROBLEM: {fault:?}"),
    }
}

/// Prints why no command was handled, and the register that the files represent still, as a loss of power leaves them.
fn print_left(
    rt: &impl Print,
    alloc: Global,
    fault: OpenFault,
    files: Files<Fuse<Memory>>,
) -> io::Result<()> {
    println!(rt; "  not started: {fault:?}")?;
    match Disks::after_loss(alloc, files)?.register(alloc)? {
        Ok(register) => print_register(rt, alloc, &register),
        Err(fault) => println!(rt; "  PROBLEM: {fault:?}"),
    }
}

fn print_came(
    rt: &impl Print,
    alloc: Global,
    restarted: &CrashOutcome<FileStore<Fuse<Memory>>>,
) -> io::Result<()> {
    for answer in &restarted.answers {
        let answer: &Answer = answer;
        println!(rt; "  {answer:?}")?;
    }
    print_found(rt, alloc, rows_of(alloc, restarted))
}

/// Has a desk answer the commands of an input over disks of which one stops, lets both crash, and prints the answers and the
/// register that the start after it finds.
pub(crate) fn crash(
    rt: &impl Print,
    alloc: Global,
    disks: &Disks,
    input: &[u8],
    stop: (Which, u64),
) -> io::Result<()> {
    let Some(commands) = commands_of(alloc, input)? else {
        return println!(rt; "  NOT A COMMAND");
    };
    match run(
        alloc,
        disks.files(alloc)?,
        calls_until(Some(stop)),
        commands,
    ) {
        None => println!(rt; "  PROBLEM: the disks cannot be used"),
        Some(Ok(restarted)) => print_came(rt, alloc, &restarted),
        Some(Err(NotHandled::NotOpened(fault, left))) => {
            print_left(rt, alloc, fault, left.into_files())
        }
        Some(Err(NotHandled::NoRoom(store))) => {
            print_left(rt, alloc, OpenFault::Memory, store.close())
        }
    }
}
