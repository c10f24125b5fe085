// The table `school`. A row that changed is written anew at its rowid; of several, all are deleted and added again.
ghost use Rattle.std.specs.Prelude.{◌≡◌, [], ◌∷◌, IfOk, IfSome, OnOk};
ghost use Rattle.sqlite.specs.Held.{state};
ghost use Rattle.sqlite.specs.State.{HasCleanDisk, Shown, Survives};
ghost use Rattle.adm_schema.specs.RowTexts.{find_school};
ghost use Rattle.adm_schema.specs.Schema.{school};
ghost use Rattle.adm_store.specs.Changes.{written_school};
ghost use Rattle.adm_store.specs.Found.{WritesFound};
ghost use Rattle.adm_store.specs.Schools.{code_row};
ghost use Rattle.adm_store.specs.Writes.{Adds, Drops, Writes, write_of};

use crate::found::cut_found;
use crate::rows::SchoolRow;
use crate::statement::{Statement, run_each};
use adm_schema::tables::schools::{delete_school, find_school, insert_school, update_school};
use adm_types::SchoolCode;
use sqlite::{Alter, Error, Row, Transaction, params};

/// The rowids of the rows of a school, of which there is one at the most.
fn found<S: Alter>(tx: &mut Transaction<'_, S>, school: SchoolCode) -> Result<Vec<Row>, Error>
    ensures same_reference { tx.new.conn.ghost_name ≡ tx.old.conn.ghost_name }
    ensures shown { HasCleanDisk (state S.Store tx.new.conn.now) → IfOk result (λ rows. Shown find_school (code_row school) (state S.Store tx.old.conn.now) (state S.Store tx.new.conn.now) rows.items) }
    ensures survives { Survives (state S.Store tx.old.conn.now) (state S.Store tx.new.conn.now) (λ _. ⊥) }
{
    let code = school.as_str();
    let rows = tx.query_all(find_school(), params![code])?;
    Ok(rows)
}

pub(crate) struct DeleteSchool;

impl Statement for DeleteSchool {
    type Item = SchoolCode;

    ghost kind = { Drops };

    ghost table = { school };

    ghost row_of = { code_row };

    fn run<S: Alter>(tx: &mut Transaction<'_, S>, code: &SchoolCode) -> Result<(), Error> {
        let rows = found(tx, *code)?;
        match rows.as_slice().split_first() {
            Some((row, others)) if others.is_empty() => { cut_found(tx, delete_school(), row) }
            _ => Err(Error::QueryReturnedNoRows),
        }
    }
}

pub(crate) struct AddSchool;

impl Statement for AddSchool {
    type Item = SchoolRow;

    ghost kind = { Adds };

    ghost table = { school };

    ghost row_of = { written_school };

    fn run<S: Alter>(tx: &mut Transaction<'_, S>, row: &SchoolRow) -> Result<(), Error> {
        let code = row.code.as_str();
        let name = row.name.as_str();
        let criteria = row.criteria.as_str();
        tx.execute(
            insert_school(),
            params![code, name, row.pan, row.east, row.north, criteria],
        )?;
        Ok(())
    }
}

/// Writes all columns of the one row whose rowid was found.
fn write_found<S: Alter>(
    tx: &mut Transaction<'_, S>,
    shown: &Row,
    row: &SchoolRow,
) -> Result<(), Error>
    ensures same_reference { tx.new.conn.ghost_name ≡ tx.old.conn.ghost_name }
    ensures runs { HasCleanDisk (state S.Store tx.new.conn.now) → OnOk result (WritesFound shown.now row.now (state S.Store tx.old.conn.now) (state S.Store tx.new.conn.now)) }
    ensures survives { Survives (state S.Store tx.old.conn.now) (state S.Store tx.new.conn.now) (λ _. ⊥) }
{
    let rowid: i64 = shown.get(0)?;
    let code = row.code.as_str();
    let name = row.name.as_str();
    let criteria = row.criteria.as_str();
    let count = tx.execute(
        update_school(),
        params![code, name, row.pan, row.east, row.north, criteria, rowid],
    )?;
    if count == 1 {
        Ok(())
    } else {
        Err(Error::QueryReturnedNoRows)
    }
}

/// Writes a school over the one of its code.
fn replace_school<S: Alter>(tx: &mut Transaction<'_, S>, row: &SchoolRow) -> Result<(), Error>
    ensures same_reference { tx.new.conn.ghost_name ≡ tx.old.conn.ghost_name }
    ensures writes { OnOk result (Writes (write_of Drops school code_row (row.now.code ∷ []) ∷ write_of Adds school written_school (row.now ∷ []) ∷ []) (state S.Store tx.old.conn.now) (state S.Store tx.new.conn.now)) }
    ensures survives { Survives (state S.Store tx.old.conn.now) (state S.Store tx.new.conn.now) (λ _. ⊥) }
{
    let rows = found(tx, row.code)?;
    match rows.as_slice().split_first() {
        Some((shown, others)) if others.is_empty() => write_found(tx, shown, row),
        _ => Err(Error::QueryReturnedNoRows),
    }
}

/// The one item, where there are no more.
fn only<T>(items: &[T]) -> Option<&T>
    ensures { IfSome result (λ item. items.now ≡ item.now ∷ []) }
{
    match items.split_first() {
        Some((item, others)) if others.is_empty() => Some(item),
        _ => None,
    }
}

/// The one school that is written, where it was there.
fn only_replaced<'a>(replaced: &[SchoolCode], schools: &'a [SchoolRow]) -> Option<&'a SchoolRow>
    ensures { IfSome result (λ row. (replaced.now ≡ row.now.code ∷ []) × (schools.now ≡ row.now ∷ [])) }
{
    let code = only(replaced)?;
    let row = only(schools)?;
    if *code == row.code { Some(row) } else { None }
}

/// Writes the schools over those of their codes, or adds them.
pub(crate) fn write_schools<S: Alter>(
    tx: &mut Transaction<'_, S>,
    replaced: &[SchoolCode],
    schools: &[SchoolRow],
) -> Result<(), Error>
    ensures same_reference { tx.new.conn.ghost_name ≡ tx.old.conn.ghost_name }
    ensures writes { OnOk result (Writes (write_of Drops school code_row replaced.now ∷ write_of Adds school written_school schools.now ∷ []) (state S.Store tx.old.conn.now) (state S.Store tx.new.conn.now)) }
    ensures survives { Survives (state S.Store tx.old.conn.now) (state S.Store tx.new.conn.now) (λ _. ⊥) }
{
    if let Some(row) = only_replaced(replaced, schools) {
        return replace_school(tx, row);
    }
    run_each::<DeleteSchool, S>(tx, replaced)?;
    run_each::<AddSchool, S>(tx, schools)
}
