// A desk over a database. Each call gives the connection back.
ghost use Rattle.std.specs.Prelude.{◌≡◌, false};
ghost use Rattle.sqlite.specs.Held.{state};
ghost use Rattle.adm_rows.specs.Represents.{IsStarted};

use crate::disks::NotFound;
use crate::registers::copy_of;
use adm_desk::{Answer, Desk, Run, RunFault};
use adm_rows::OpenFault;
use adm_types::Command;
use adm_wire::{Input, Output};
use sqlite::{Alter, Connection};
use std::alloc::Global;

type Opened<S> = Result<Desk<S>, (OpenFault, Connection<S>)>;

/// A desk over a connection. No clause speaks of it.
pub(crate) fn opened<S: Alter>(alloc: Global, conn: Connection<S>) -> Opened<S>
    requires ended { conn.in_transaction ≡ false }
    requires started { IsStarted (state S.Store conn) }
{
    Desk::open(alloc, conn)
}

/// The answer to a copy of a command. No clause speaks of it.
pub(crate) fn asked<S: Alter>(desk: &mut Desk<S>, command: &Command) -> Answer {
    match copy_of(command) {
        Ok(command) => desk.handle(command),
        Err(_) => Answer::Memory,
    }
}

/// The connection of a desk. No clause speaks of it.
pub(crate) fn given_back<S: Alter>(desk: Desk<S>) -> Connection<S> {
    desk.into_connection()
}

/// What lines came to.
#[derive(Clone, Copy, Debug)]
pub(crate) enum Ran {
    NotFound(NotFound),
    ToTheEnd(Run),
    Stopped(RunFault),
}

/// The lines of a reader, answered to a writer. No clause speaks of it.
fn run_lines<S: Alter, R: Input, W: Output>(
    desk: &mut Desk<S>,
    reader: &mut R,
    writer: &mut W,
) -> Result<Run, RunFault> {
    desk.run_lines(reader, writer)
}

/// What the lines of a reader come to, answered to a writer.
pub(crate) fn run_all<S: Alter, R: Input, W: Output>(
    desk: &mut Desk<S>,
    reader: &mut R,
    writer: &mut W,
) -> Ran {
    match run_lines(desk, reader, writer) {
        Ok(run) => Ran::ToTheEnd(run),
        Err(fault) => Ran::Stopped(fault),
    }
}
