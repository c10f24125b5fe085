// An act as work over a database, and how far it came where a disk stopped.
ghost use Rattle.std.specs.Prelude.{◌≡◌, false};
ghost use Rattle.sqlite.specs.Held.{state};
ghost use Rattle.adm_rows.specs.Represents.{IsStarted};

use crate::desk::desks::{asked, given_back, opened};
use crate::disks::{Work, created};
use crate::steps::Act;
use adm_desk::{Answer, Desk};
use adm_rows::OpenFault;
use adm_store::CreateFault;
use adm_types::{Command, Reply, Season};
use sqlite::{Alter, Connection};
use std::alloc::Global;

/// How far an act came.
#[derive(Clone, Copy, PartialEq, Eq, Debug)]
pub(crate) enum Came {
    NoDatabase,
    Created,
    NotCreated(CreateFault),
    NotOpened(OpenFault),
    NotDone(Answer),
    Done(Reply),
    /// The desk answered Failed, and Failed again.
    Failed,
    /// The desk answered Failed, and then something else.
    WentOn,
}

fn made<S: Alter>(alloc: Global, conn: Connection<S>, season: &Season) -> (Came, Connection<S>)
    requires { conn.in_transaction ≡ false }
{
    match created(alloc, conn, season) {
        (Ok(()), conn) => (Came::Created, conn),
        (Err(fault), conn) => (Came::NotCreated(fault), conn),
    }
}

/// How far a command came. Where the answer is Failed, it comes a second time.
fn answer<S: Alter>(desk: &mut Desk<S>, command: &Command) -> Came {
    match asked(desk, command) {
        Answer::Done(reply) => Came::Done(reply),
        Answer::Failed => match asked(desk, command) {
            Answer::Failed => Came::Failed,
            _ => Came::WentOn,
        },
        other => Came::NotDone(other),
    }
}

fn handled<S: Alter>(alloc: Global, conn: Connection<S>, command: &Command) -> (Came, Connection<S>)
    requires ended { conn.in_transaction ≡ false }
    requires started { IsStarted (state S.Store conn) }
{
    match opened(alloc, conn) {
        Err((fault, conn)) => (Came::NotOpened(fault), conn),
        Ok(mut desk) => {
            let came = answer(&mut desk, command);
            (came, given_back(desk))
        }
    }
}

/// An act, done with a database.
#[derive(Drop)]
pub(crate) struct Doing<'a> {
    pub(crate) act: &'a Act,
}

impl<'a> Work for Doing<'a> {
    type Came = Came;

    fn over<S: Alter>(&self, alloc: Global, conn: Connection<S>) -> (Came, Connection<S>) {
        match self.act {
            Act::Create(season) => made(alloc, conn, season),
            Act::Handle(command) => handled(alloc, conn, command),
        }
    }
}
