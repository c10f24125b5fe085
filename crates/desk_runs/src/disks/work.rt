// What is done with a database over any store. Each call gives the connection back.
ghost use Rattle.std.specs.Prelude.{◌≡◌, false};
ghost use Rattle.sqlite.specs.Held.{state};
ghost use Rattle.adm_rows.specs.Represents.{IsStarted};

use adm_register::Register;
use adm_rows::OpenFault;
use adm_schema::{Version, version_of};
use adm_store::{CreateFault, Store, create, open};
use adm_types::Season;
use sqlite::{Alter, Connection, Error};
use std::alloc::Global;

/// What is done with a database that was opened.
pub(crate) trait Work {
    /// Its result.
    type Came: Drop;

    /// Does it.
    fn over<S: Alter>(&self, alloc: Global, conn: Connection<S>) -> (Self::Came, Connection<S>)
        requires ended { conn.in_transaction ≡ false }
        requires started { IsStarted (state S.Store conn) };
}

/// A text that is run.
#[derive(Drop)]
pub(crate) struct Text<'a> {
    pub(crate) sql: &'a str,
}

impl<'a> Work for Text<'a> {
    type Came = Result<(), Error>;

    fn over<S: Alter>(
        &self,
        _alloc: Global,
        mut conn: Connection<S>,
    ) -> (Result<(), Error>, Connection<S>) {
        let ran = conn.execute_batch(self.sql);
        (ran, conn)
    }
}

/// The version of the tables.
#[derive(Drop)]
pub(crate) struct Tables;

impl Work for Tables {
    type Came = Option<Version>;

    fn over<S: Alter>(
        &self,
        _alloc: Global,
        conn: Connection<S>,
    ) -> (Option<Version>, Connection<S>) {
        (version_of(conn.schema()), conn)
    }
}

/// The register that an open finds.
#[derive(Drop)]
pub(crate) struct Opening;

type Opened<S> = Result<(Store<S>, Register), (OpenFault, Connection<S>)>;

/// What an open answers. No clause speaks of it.
fn opened<S: Alter>(alloc: Global, conn: Connection<S>) -> Opened<S>
    requires ended { conn.in_transaction ≡ false }
    requires started { IsStarted (state S.Store conn) }
{
    open(alloc, conn)
}

/// The connection of a store. No clause speaks of it.
fn given_back<S: Alter>(store: Store<S>) -> Connection<S> {
    store.into_connection()
}

impl Work for Opening {
    type Came = Result<Register, OpenFault>;

    fn over<S: Alter>(
        &self,
        alloc: Global,
        conn: Connection<S>,
    ) -> (Result<Register, OpenFault>, Connection<S>) {
        match opened(alloc, conn) {
            Ok((store, register)) => (Ok(register), given_back(store)),
            Err((fault, conn)) => (Err(fault), conn),
        }
    }
}

/// Creates a register. No clause speaks of what it leaves.
pub(crate) fn created<S: Alter>(
    alloc: Global,
    mut conn: Connection<S>,
    season: &Season,
) -> (Result<(), CreateFault>, Connection<S>)
    requires { conn.in_transaction ≡ false }
{
    let created = create(alloc, &mut conn, season);
    (created, conn)
}
