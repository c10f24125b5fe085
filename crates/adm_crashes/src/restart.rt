// A crash of the disk under a store, and the start after it.
ghost use Rattle.std.specs.Prelude.{◌≡◌, ◌⊎◌, false, IfOk, IfErr, IsTrue};
ghost use Rattle.sqlite.specs.Held.{state};
ghost use Rattle.sqlite.specs.State.{HasCleanDisk};
ghost use Rattle.sqlite.specs.Tree.{Trees};
ghost use Rattle.sqlite_trees.specs.View.{IsClean};
ghost use Rattle.adm_rows.specs.Faults.{IsNoRegister};
ghost use Rattle.adm_rows.specs.Represents.{IsStarted, LeavesOnly};
ghost use Rattle.adm_crashes.specs.Restart.{FindsNone, FindsOne, LeavesNoMore, LeavesSame, StartsFrom};

use adm_desk::{Answer, Desk};
use adm_rows::{OpenFault, one_register};
use sqlite::{Alter, Connection, Error, ErrorCode};
use sqlite_trees::error::StoreError;
use sqlite_trees::store::Reopen;
use std::alloc::Global;

/// The answers of a run, and the result of the start after it: a desk, or the error and what
/// remains of the store.
pub struct CrashOutcome<S: Alter> {
    pub answers: Vec<Answer>,
    pub opened: Result<Desk<S>, (OpenFault, S)>,
}

impl<S: Alter + Drop> Drop for CrashOutcome<S> {
    fn drop(self) {
        let CrashOutcome {
            answers: _,
            opened: _,
        } = self;
    }
}

fn store_fault(error: StoreError) -> OpenFault
    ensures { (result ≡ OpenFault.Disk) ⊎ (result ≡ OpenFault.Memory) }
{
    match error {
        StoreError::OutOfMemory => OpenFault::Memory,
        _ => OpenFault::Disk,
    }
}

pub(crate) fn connection_fault(error: Error) -> OpenFault
    ensures { (result ≡ OpenFault.Disk) ⊎ (result ≡ OpenFault.Memory) }
{
    match error {
        Error::SqliteFailure(ErrorCode::OutOfMemory) => OpenFault::Memory,
        _ => OpenFault::Disk,
    }
}

/// Crashes the disk under the store, and starts it again. Where that fails, what remains of it.
fn start_again<S: Alter + Reopen + Drop>(
    alloc: Global,
    mut store: S,
) -> Result<Connection<S>, (OpenFault, S)>
    requires numbered { IsClean (S.Store.view store) → IsTrue (S.Store.view store).is_numbered }
    ensures ended { IfOk result (λ conn. conn.in_transaction ≡ false) }
    ensures started { IfOk result (λ conn. IsStarted (state S.Store conn)) }
    ensures from { IfOk result (λ conn. HasCleanDisk (state S.Store conn) → StartsFrom S.Store store conn) }
    ensures fault { IfErr result (λ e. (e.0 ≡ OpenFault.Disk) ⊎ (e.0 ≡ OpenFault.Memory)) }
    ensures left { IfErr result (λ e. LeavesNoMore S.Store store e.1) }
{
    if let Err(error) = store.crash_and_reopen() {
        return Err((store_fault(error), store));
    }
    match Connection::over(alloc, store) {
        Ok(conn) => Ok(conn),
        Err((error, store)) => Err((connection_fault(error), store)),
    }
}

/// Crashes the disk under the store, starts it again and opens what it holds. Where that fails, what
/// remains of the store.
pub(crate) fn restart<S: Alter + Reopen + Drop>(
    alloc: Global,
    store: S,
) -> Result<Desk<S>, (OpenFault, S)>
    requires numbered { IsClean (S.Store.view store) → IsTrue (S.Store.view store).is_numbered }
    ensures alive { IfOk result (λ new. (new.failed ≡ false) × LeavesOnly new.register (state S.Store new.conn)) }
    ensures finds { IfOk result (λ new. HasCleanDisk (state S.Store new.conn) → IsClean (S.Store.view store) × FindsOne (S.Store.recovers store) new.register) }
    ensures left { IfErr result (λ e. IsClean (S.Store.view e.1) → IsClean (S.Store.view store) × LeavesSame (S.Store.recovers store) (S.Store.recovers e.1)) }
    ensures never { IfErr result (λ e. IsClean (S.Store.view e.1) → IsNoRegister e.0 → FindsNone (S.Store.recovers store)) }
{
    let conn = start_again(alloc, store)?;
    // a call of the law says that a file represents one register
    one_register();
    match Desk::open(alloc, conn) {
        Ok(desk) => Ok(desk),
        Err((fault, conn)) => Err((fault, conn.into_store())),
    }
}
