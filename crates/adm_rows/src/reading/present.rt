// The rows of `present` as present schools. A file of the first version has no such table, and nobody in it a present school.
ghost use Rattle.std.specs.Prelude.{◌≡◌, List, map, IsPermutation, IfOk, IfErr, OnOk};
ghost use Rattle.std.specs.List.{AllByRecursion};
ghost use Rattle.sqlite.specs.Held.{state};
ghost use Rattle.sqlite.specs.State.{HasCleanDisk, Survives};
ghost use Rattle.adm_types.specs.declared.rows.PresentRow.{PresentRow as Facts};
ghost use Rattle.adm_schema.specs.declared.version.Version.TheVariants.{Second};
ghost use Rattle.adm_schema.specs.Schema.{present};
ghost use Rattle.adm_rows.specs.Present.{present_columns};
ghost use Rattle.adm_rows.specs.Faults.{IsNoRegister, IsPresentRow};
ghost use Rattle.adm_rows.specs.Causes.{DiskFailedIn};
ghost use Rattle.adm_rows.specs.Reads.{ReadsIn, Holds, HoldsPresent};

use crate::OpenFault;
use crate::reading::codes::code_at;
use crate::reading::columns::{child_at, truth_at};
use crate::reading::queries::query;
use adm_register::RowsFault;
use adm_schema::Version;
use adm_schema::tables::present::select_present;
use adm_types::PresentRow;
use sqlite::{Alter, Row, Transaction};
use std::alloc::Global;

fn present_in(row: &Row) -> Result<PresentRow, RowsFault>
    ensures ok { IfOk result (λ x. row.now ≡ present_columns x) }
    ensures bad { IfErr result (λ e. e ≡ RowsFault.BadRow → (x : Facts) → IsPresentRow x → row.now ≡ present_columns x → ⊥) }
{
    if row.column_count() != 3 {
        return Err(RowsFault::BadRow);
    }
    let child = child_at(row, 0)?;
    let is_imported = truth_at(row, 1)?;
    let school = code_at(row, 2)?;
    Ok(PresentRow {
        child,
        is_imported,
        school,
    })
}

/// The present schools of these rows.
fn all_in(alloc: Global, rows: &[Row]) -> Result<Vec<PresentRow>, RowsFault>
    ensures ok { IfOk result (λ all. map present_columns all.items ≡ rows.now) }
    ensures bad { IfErr result (λ e. e ≡ RowsFault.BadRow → (all : List Facts) → AllByRecursion IsPresentRow all → IsPermutation (map present_columns all) rows.now → ⊥) }
{
    let mut all = Vec::new(alloc);
    'rows: for row in rows {
        let one = present_in(row)?;
        if all.push(one).is_err() {
            return Err(RowsFault::Memory);
        }
    }
    Ok(all)
}

/// The present schools of a file of the second version.
fn read_present<S: Alter>(
    alloc: Global,
    tx: &mut Transaction<'_, S>,
) -> Result<Vec<PresentRow>, OpenFault>
    ensures same_reference { tx.new.conn.ghost_name ≡ tx.old.conn.ghost_name }
    ensures ok { IfOk result (λ all. ReadsIn Second (Holds present present_columns all.items) (state S.Store tx.old.conn.now) (state S.Store tx.new.conn.now)) }
    ensures bad { IfErr result (λ e. IsNoRegister e → (all : List Facts) → AllByRecursion IsPresentRow all →
        ReadsIn Second (λ db. ¬ Holds present present_columns all db) (state S.Store tx.old.conn.now) (state S.Store tx.new.conn.now)) }
    ensures first { HasCleanDisk (state S.Store tx.new.conn.now) → IfErr result (λ e. IsNoRegister e → e ≡ OpenFault.BadRow) }
    ensures disk { IfErr result (λ e. e ≡ OpenFault.Disk → DiskFailedIn Second (state S.Store tx.old.conn.now) (state S.Store tx.new.conn.now)) }
    ensures survives { Survives (state S.Store tx.old.conn.now) (state S.Store tx.new.conn.now) (λ _. ⊥) }
{
    let rows = query(tx, select_present(), OpenFault::BadRow)?;
    let all = all_in(alloc, rows.as_slice())?;
    Ok(all)
}

/// The present schools of a file of this version.
pub(super) fn presents_in<S: Alter>(
    alloc: Global,
    tx: &mut Transaction<'_, S>,
    version: Version,
) -> Result<Vec<PresentRow>, OpenFault>
    ensures same_reference { tx.new.conn.ghost_name ≡ tx.old.conn.ghost_name }
    ensures ok { IfOk result (λ all. ReadsIn version (HoldsPresent version all.items) (state S.Store tx.old.conn.now) (state S.Store tx.new.conn.now)) }
    ensures bad { IfErr result (λ e. IsNoRegister e → (all : List Facts) → AllByRecursion IsPresentRow all →
        ReadsIn version (λ db. ¬ HoldsPresent version all db) (state S.Store tx.old.conn.now) (state S.Store tx.new.conn.now)) }
    ensures first { HasCleanDisk (state S.Store tx.new.conn.now) → IfErr result (λ e. IsNoRegister e → e ≡ OpenFault.BadRow) }
    ensures disk { IfErr result (λ e. e ≡ OpenFault.Disk → DiskFailedIn version (state S.Store tx.old.conn.now) (state S.Store tx.new.conn.now)) }
    ensures survives { Survives (state S.Store tx.old.conn.now) (state S.Store tx.new.conn.now) (λ _. ⊥) }
{
    match version {
        Version::First => Ok(Vec::new(alloc)),
        Version::Second => read_present(alloc, tx),
    }
}
