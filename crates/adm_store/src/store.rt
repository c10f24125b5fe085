// The store of a register: to create it, to open it and to write what a command changed.
ghost use Rattle.std.specs.Prelude.{◌≡◌, ◌≢◌, ◌↔◌, ◌⊎◌, ◌<◌, false, Err, OnOk, OnErr, IfOk, IfErr, IsTrue};
ghost use Rattle.sqlite.specs.Held.{state};
ghost use Rattle.sqlite.specs.State.{HasCleanDisk, Survives};
ghost use Rattle.adm_schema.specs.Schema.{no_schema, schema_of};
ghost use Rattle.adm_schema.specs.declared.version.Version.TheVariants.{First, Second};
ghost use Rattle.sqlite.specs.Tree.{Trees};
ghost use Rattle.adm_register.specs.State.{State as Facts, only_season};
ghost use Rattle.adm_store.specs.Changes.{AtNext, Commits, CommitsOrNot};
ghost use Rattle.adm_rows.specs.Represents.{IsStarted, RepresentsIn, RepresentsNone, LeavesAll, LeavesOnly, LeavesOldOrNew, LeavesNone};
ghost use Rattle.adm_store.specs.Migration.{IsMigrated};
ghost use Rattle.adm_rows.specs.Faults.{IsNoRegister};
ghost use Rattle.adm_rows.specs.FirstFault.{IsFirstFault};
ghost use Rattle.adm_rows.specs.Causes.{OnCleanDisk, HasDiskCause};
ghost use Rattle.adm_store.specs.Writes.{count_of, base_writes, place_writes, draw_writes, import_writes, writes_of, Writes};

use crate::applications::{DeleteApplication, PutApplication};
use crate::children::PutChild;
use crate::draws::AddDraw;
use crate::imported::AddImported;
use crate::left_list::AddLeft;
use crate::lots::AddLot;
use crate::migration::migrate;
use crate::offers::AddOffer;
use crate::places::{DeletePlace, PutPlace};
use crate::present::{AddPresent, DeletePresent};
use crate::rows::{Changes, last_draw};
use crate::schools::write_schools;
use crate::season::SetDraws;
use crate::statement::{put_all, run_all, run_each};
use crate::to_rows::ToRow;
use crate::{CreateFault, Failed, creation};
use adm_register::Register;
use adm_rows::{OpenFault, register_in};
use adm_schema::{Version, version_of};
use adm_types::Season;
use sqlite::{Alter, Connection, Error, ErrorCode, Transaction};
use std::alloc::Global;
use std::marker::Model;

/// Memory only where `sqlite` has none.
fn create_fault(error: Error) -> CreateFault
    ensures memory { (result ≡ CreateFault.Memory) ↔ (error ≡ Error.SqliteFailure ErrorCode.OutOfMemory) }
    ensures other { result ≢ CreateFault.InUse }
{
    match error {
        Error::SqliteFailure(ErrorCode::OutOfMemory) => CreateFault::Memory,
        _ => CreateFault::Disk,
    }
}

/// Creates the register of a season in a database that has no table, no index and no view.
/// What it costs does not grow.
pub fn create<S: Alter>(
    alloc: Global,
    conn: &mut Connection<S>,
    season: &Season,
) -> Result<(), CreateFault>
    requires { conn.old.in_transaction ≡ false }
    ensures ended { conn.new.in_transaction ≡ false }
    ensures unused { OnOk result (conn.old.schema ≡ no_schema) }
    ensures ok { OnOk result (LeavesOnly (only_season season.now) (state S.Store conn.new)) }
    ensures started { OnOk result (IsStarted (state S.Store conn.new)) }
    ensures in_use { result ≡ Err CreateFault.InUse → (conn.old.schema ≢ no_schema) × (conn.new ≡ conn.old) }
    ensures taken { conn.old.schema ≢ no_schema → result ≡ Err CreateFault.InUse }
    ensures err { OnErr result (LeavesOldOrNew season.now (state S.Store conn.old) (state S.Store conn.new)) }
    // A wrong answer of the disk is not forgotten.
    ensures clean { HasCleanDisk (state S.Store conn.new) → HasCleanDisk (state S.Store conn.old) }
{
    if !creation::is_empty(conn.schema()) {
        return Err(CreateFault::InUse);
    }
    // that it is a season, a call of it says
    let _days = season.holidays();
    let Ok(row) = season.to_row(alloc) else {
        return Err(CreateFault::Memory);
    };
    match creation::build(conn, &row) {
        Ok(()) => Ok(()),
        Err(error) => Err(create_fault(error)),
    }
}

/// Reads the register and the version of its tables, and leaves the file as it was.
fn read<S: Alter>(alloc: Global, conn: &mut Connection<S>) -> Result<(Version, Register), OpenFault>
    requires { conn.old.in_transaction ≡ false }
    ensures ended { conn.new.in_transaction ≡ false }
    ensures ok { OnCleanDisk (state S.Store conn.old) (state S.Store conn.new) (IfOk result (λ it. (db : Trees) → (state S.Store conn.old).may_leave db → RepresentsIn it.0 db it.1)) }
    ensures tables { IfOk result (λ it. conn.old.schema ≡ schema_of it.0) }
    ensures bad { OnCleanDisk (state S.Store conn.old) (state S.Store conn.new) (IfErr result (λ e. IsNoRegister e → (db : Trees) → (state S.Store conn.old).may_leave db → RepresentsNone db)) }
    ensures first { HasCleanDisk (state S.Store conn.new) → IfErr result (λ e. IsNoRegister e → IsFirstFault (state S.Store conn.old).now e) }
    ensures disk { IfErr result (λ e. e ≡ OpenFault.Disk → HasDiskCause (state S.Store conn.old) (state S.Store conn.new)) }
    ensures survives { Survives (state S.Store conn.old) (state S.Store conn.new) (λ _. ⊥) }
{
    // stated for the proof: no transaction is open
    let at_rest = conn.is_autocommit();
    prove!(at_rest);
    let version = version_of(conn.schema());
    let mut tx = conn.transaction();
    let found = register_in(alloc, &mut tx, version);
    tx.rollback();
    found
}

/// Why a file of the first version did not become one of the second.
fn migration_fault(error: Error) -> OpenFault
    ensures memory { (result ≡ OpenFault.Memory) ↔ (error ≡ Error.SqliteFailure ErrorCode.OutOfMemory) }
    ensures other { IsNoRegister result → ⊥ }
{
    match error {
        Error::SqliteFailure(ErrorCode::OutOfMemory) => OpenFault::Memory,
        _ => OpenFault::Disk,
    }
}

/// Makes a file of the first version, which was read so, one of the second; one of the second stays as it is.
fn bring_up<S: Alter>(conn: &mut Connection<S>, version: Version) -> Result<(), Error>
    requires { conn.old.in_transaction ≡ false }
    ensures ended { conn.new.in_transaction ≡ false }
    ensures first { OnErr result (version ≡ First) }
    ensures ok { OnOk result ((r : Facts) → LeavesAll version r (state S.Store conn.old) → LeavesOnly r (state S.Store conn.new)) }
    ensures survives { (r : Facts) → LeavesAll version r (state S.Store conn.old) → Survives (state S.Store conn.old) (state S.Store conn.new) (λ db. (version ≡ First) × RepresentsIn Second db r) }
{
    match version {
        Version::First => migrate(conn),
        Version::Second => Ok(()),
    }
}

/// Opens the register that the file represents, and brings the file to the second version. What it
/// costs grows with the register's rows.
pub fn open<S: Alter>(
    alloc: Global,
    mut conn: Connection<S>,
) -> Result<(Store<S>, Register), (OpenFault, Connection<S>)>
    requires ended { conn.in_transaction ≡ false }
    requires started { IsStarted (state S.Store conn) }
    ensures ok { IfOk result (λ o. LeavesOnly o.1 (state S.Store o.0)) }
    ensures bad { IfErr result (λ e. IsNoRegister e.0 → LeavesNone (state S.Store e.1)) }
    ensures first { IfErr result (λ e. HasCleanDisk (state S.Store e.1) → IsNoRegister e.0 → IsFirstFault (state S.Store conn).now e.0) }
    ensures disk { IfErr result (λ e. e.0 ≡ OpenFault.Disk → HasDiskCause (state S.Store conn) (state S.Store e.1) ⊎ (conn.schema ≡ schema_of First)) }
    ensures kept { IfOk result (λ o. Survives (state S.Store conn) (state S.Store o.0) (IsMigrated (state S.Store conn))) }
    ensures ended { IfErr result (λ e. e.1.in_transaction ≡ false) }
    ensures left { IfErr result (λ e. Survives (state S.Store conn) (state S.Store e.1) (IsMigrated (state S.Store conn))) }
{
    let (version, register) = match read(alloc, &mut conn) {
        Ok(found) => found,
        Err(fault) => return Err((fault, conn)),
    };
    match bring_up(&mut conn, version) {
        Ok(()) => Ok((Store { conn }, register)),
        Err(error) => Err((migration_fault(error), conn)),
    }
}

/// A connection, outside a transaction, to the file of a register.
pub struct Store<S: Alter> {
    conn: Connection<S>,
}

impl<S: Alter + Drop> Drop for Store<S> {
    fn drop(self) {
        let Store { conn: _ } = self;
    }
}

impl<S: Alter> Model for Store<S> {
    ghost use Rattle.std.specs.Prelude.{◌≡◌, false};
    ghost use Rattle.sqlite.specs.Held.{Held, held_code};

    ghost Value = { Held S };

    ghost coded = { held_code S.code };

    ghost view = { λ s. s.conn };

    ghost invariant = { λ s. s.conn.in_transaction ≡ false };
}

impl<S: Alter> Store<S> {
    /// The connection. It takes no memory.
    pub fn into_connection(self) -> Connection<S>
        ensures same { result ≡ self }
        ensures ended { result.in_transaction ≡ false }
    {
        let Store { conn } = self;
        conn
    }

    /// Writes the changes in one transaction, whose commit is the last call of the store.
    /// What it costs grows with the changes.
    pub fn commit(&mut self, changes: &Changes) -> Result<(), Failed>
        ensures ok { OnOk result (Commits changes.now (state S.Store self.old) (state S.Store self.new)) }
        ensures err { OnErr result (CommitsOrNot changes.now (state S.Store self.old) (state S.Store self.new)) }
        // A wrong answer of the disk is not forgotten.
        ensures clean { AtNext changes.now (state S.Store self.old) (λ _. HasCleanDisk (state S.Store self.new) → HasCleanDisk (state S.Store self.old)) }
    {
        if changes.put() == 0 && changes.cut() == 0 && changes.replaced.len() == 0 {
            return Ok(());
        }
        let Ok(()) = write(&mut self.conn, changes) else {
            return Err(Failed);
        };
        Ok(())
    }
}

/// Writes the schools, the children and their applications; deletes the rows of schools that changed, and the applications that ended.
fn write_base<S: Alter>(tx: &mut Transaction<'_, S>, changes: &Changes) -> Result<(), Error>
    ensures same_reference { tx.new.conn.ghost_name ≡ tx.old.conn.ghost_name }
    ensures writes { OnOk result (Writes (base_writes changes.now) (state S.Store tx.old.conn.now) (state S.Store tx.new.conn.now)) }
    ensures survives { Survives (state S.Store tx.old.conn.now) (state S.Store tx.new.conn.now) (λ _. ⊥) }
{
    write_schools(tx, changes.replaced.as_slice(), changes.schools.as_slice())?;
    put_all::<PutChild, S>(tx, changes.children.as_slice(), changes.only_new_children)?;
    run_each::<DeleteApplication, S>(tx, changes.ended.as_slice())?;
    put_all::<PutApplication, S>(
        tx,
        changes.applications.as_slice(),
        changes.only_new_applications,
    )
}

/// Writes the places and the schools that children left; deletes the places that ended.
fn write_places<S: Alter>(tx: &mut Transaction<'_, S>, changes: &Changes) -> Result<(), Error>
    ensures same_reference { tx.new.conn.ghost_name ≡ tx.old.conn.ghost_name }
    ensures writes { OnOk result (Writes (place_writes changes.now) (state S.Store tx.old.conn.now) (state S.Store tx.new.conn.now)) }
    ensures survives { Survives (state S.Store tx.old.conn.now) (state S.Store tx.new.conn.now) (λ _. ⊥) }
{
    run_each::<DeletePlace, S>(tx, changes.vacated.as_slice())?;
    put_all::<PutPlace, S>(tx, changes.places.as_slice(), changes.only_new_places)?;
    run_each::<AddLeft, S>(tx, changes.left.as_slice())
}

/// Writes the draws with their outcomes and lots, and counts them.
fn write_draws<S: Alter>(tx: &mut Transaction<'_, S>, changes: &Changes) -> Result<(), Error>
    ensures same_reference { tx.new.conn.ghost_name ≡ tx.old.conn.ghost_name }
    ensures writes { OnOk result (Writes (draw_writes changes.now) (state S.Store tx.old.conn.now) (state S.Store tx.new.conn.now)) }
    ensures survives { Survives (state S.Store tx.old.conn.now) (state S.Store tx.new.conn.now) (λ _. ⊥) }
{
    run_each::<AddDraw, S>(tx, changes.draws.as_slice())?;
    run_all::<AddOffer, S>(tx, changes.offers.as_slice())?;
    run_all::<AddLot, S>(tx, changes.lots.as_slice())?;
    run_each::<SetDraws, S>(tx, last_draw(changes.draws.as_slice()))
}

/// Writes the imported rows and the present schools; deletes those that changed.
fn write_imported<S: Alter>(tx: &mut Transaction<'_, S>, changes: &Changes) -> Result<(), Error>
    ensures same_reference { tx.new.conn.ghost_name ≡ tx.old.conn.ghost_name }
    ensures writes { OnOk result (Writes (import_writes changes.now) (state S.Store tx.old.conn.now) (state S.Store tx.new.conn.now)) }
    ensures survives { Survives (state S.Store tx.old.conn.now) (state S.Store tx.new.conn.now) (λ _. ⊥) }
{
    run_all::<AddImported, S>(tx, changes.imported.as_slice())?;
    run_each::<DeletePresent, S>(tx, changes.moved.as_slice())?;
    run_each::<AddPresent, S>(tx, changes.present.as_slice())
}

/// Writes the rows of each table. A step makes a few of them, since one that makes many calls that may fail is dear to check.
fn write_rows<S: Alter>(tx: &mut Transaction<'_, S>, changes: &Changes) -> Result<(), Error>
    ensures same_reference { tx.new.conn.ghost_name ≡ tx.old.conn.ghost_name }
    ensures writes { OnOk result (Writes (writes_of changes.now) (state S.Store tx.old.conn.now) (state S.Store tx.new.conn.now)) }
    ensures survives { Survives (state S.Store tx.old.conn.now) (state S.Store tx.new.conn.now) (λ _. ⊥) }
{
    write_base(tx, changes)?;
    write_places(tx, changes)?;
    write_draws(tx, changes)?;
    write_imported(tx, changes)
}

fn write<S: Alter>(conn: &mut Connection<S>, changes: &Changes) -> Result<(), Error>
    requires ended { conn.old.in_transaction ≡ false }
    requires some { 0 < count_of (writes_of changes.now) }
    ensures ended { conn.new.in_transaction ≡ false }
    ensures committed { HasCleanDisk (state S.Store conn.new) → OnOk result (IsTrue (state S.Store conn.new).is_open × AtNext changes.now (state S.Store conn.old) (RepresentsIn Second (state S.Store conn.new).committed.trees)) }
    ensures survives { AtNext changes.now (state S.Store conn.old) (λ new. Survives (state S.Store conn.old) (state S.Store conn.new) (λ db. RepresentsIn Second db new)) }
{
    // stated for the proof: no transaction is open
    let at_rest = conn.is_autocommit();
    prove!(at_rest);
    // that the connection sees a database, a call of it says
    let _tables = conn.schema();
    let mut tx = conn.transaction();
    write_rows(&mut tx, changes)?;
    tx.commit()
}
