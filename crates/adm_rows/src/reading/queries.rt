// The rows that a query answers, or why there are none.
ghost use Rattle.std.specs.Prelude.{◌≡◌, ◌↔◌, IfOk, IfErr, OnOk};
ghost use Rattle.sqlite.specs.Held.{state};
ghost use Rattle.sqlite.specs.State.{HasCleanDisk, Survives};
ghost use Rattle.sqlite.specs.Table.{Table};
ghost use Rattle.sqlite_resolve.specs.declared.error.CompileError.{CompileError};
ghost use Rattle.adm_schema.specs.declared.version.Version.{Version as FileVersion};
ghost use Rattle.adm_rows.specs.Reads.{AsksAll, ReadsIn, SeesTheSameIn};
ghost use Rattle.adm_rows.specs.Represents.{HasRows};
ghost use Rattle.adm_rows.specs.FirstFault.{IsAnswered, IsNotAsked};
ghost use Rattle.adm_rows.specs.Faults.{IsNoRegister};
ghost use Rattle.adm_rows.specs.Causes.{DiskFailedIn, DiskFailedOr};

use crate::OpenFault;
use sqlite::{Alter, Error, ErrorCode, Row, Transaction};

/// A query is refused for its text only where a table or a column is missing.
fn query_fault(error: Error, missing: OpenFault) -> OpenFault
    ensures missing { IsNoRegister result → IsNoRegister missing × ((why : CompileError) × (error ≡ Error.SqlInputError why)) × (result ≡ missing) }
    ensures memory { IsNoRegister missing → ((result ≡ OpenFault.Memory) ↔ (error ≡ Error.SqliteFailure ErrorCode.OutOfMemory)) }
    ensures disk { IsNoRegister missing → result ≡ OpenFault.Disk → (error ≡ Error.SqliteFailure ErrorCode.OutOfMemory → ⊥) × ((why : CompileError) → error ≡ Error.SqlInputError why → ⊥) }
{
    match error {
        Error::SqlInputError(_) => missing,
        Error::SqliteFailure(ErrorCode::OutOfMemory) => OpenFault::Memory,
        _ => OpenFault::Disk,
    }
}

/// The rows that a query answers, of which more is known where it queries all of one table.
pub(super) fn query<S: Alter>(
    tx: &mut Transaction<'_, S>,
    text: &str,
    missing: OpenFault,
) -> Result<Vec<Row>, OpenFault>
    ensures same_reference { tx.new.conn.ghost_name ≡ tx.old.conn.ghost_name }
    ensures ok { IfOk result (λ rows. (v : FileVersion) (t : Table) → AsksAll v t text.now → ReadsIn v (HasRows t rows.items) (state S.Store tx.old.conn.now) (state S.Store tx.new.conn.now)) }
    ensures same { OnOk result ((v : FileVersion) (t : Table) → AsksAll v t text.now → SeesTheSameIn v (state S.Store tx.old.conn.now) (state S.Store tx.new.conn.now)) }
    ensures bad { IfErr result (λ e. IsNoRegister e → (v : FileVersion) (t : Table) → AsksAll v t text.now → ReadsIn v (λ _. ⊥) (state S.Store tx.old.conn.now) (state S.Store tx.new.conn.now)) }
    ensures answered { HasCleanDisk (state S.Store tx.new.conn.now) → IfOk result (λ rows. IsAnswered (state S.Store tx.old.conn.now).now text.now rows.items) }
    ensures refused { HasCleanDisk (state S.Store tx.new.conn.now) → IfErr result (λ e. IsNoRegister e → (e ≡ missing) × IsNotAsked (state S.Store tx.old.conn.now).now text.now) }
    ensures disk { IsNoRegister missing → IfErr result (λ e. e ≡ OpenFault.Disk → (v : FileVersion) (t : Table) → AsksAll v t text.now → DiskFailedIn v (state S.Store tx.old.conn.now) (state S.Store tx.new.conn.now)) }
    ensures unanswered { IsNoRegister missing → IfErr result (λ e. e ≡ OpenFault.Disk → DiskFailedOr text.now (state S.Store tx.old.conn.now) (state S.Store tx.new.conn.now)) }
    ensures survives { Survives (state S.Store tx.old.conn.now) (state S.Store tx.new.conn.now) (λ _. ⊥) }
{
    match tx.query_all(text, &[]) {
        Ok(rows) => Ok(rows),
        Err(error) => Err(query_fault(error, missing)),
    }
}
