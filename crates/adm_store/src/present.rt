// The table `present`, whose key is two columns: a row that goes is found first, and deleted by its rowid.
ghost use Rattle.std.specs.Prelude.{◌≡◌, IfOk};
ghost use Rattle.sqlite.specs.Held.{state};
ghost use Rattle.sqlite.specs.State.{HasCleanDisk, Shown, Survives};
ghost use Rattle.adm_schema.specs.RowTexts.{find_present};
ghost use Rattle.adm_schema.specs.Schema.{present};
ghost use Rattle.adm_rows.specs.Present.{present_columns, moved_key};
ghost use Rattle.adm_store.specs.Writes.{Adds, Drops};

use crate::found::cut_found;
use crate::statement::Statement;
use adm_schema::tables::present::{delete_present, find_present, insert_present};
use adm_types::{ChildNo, PresentRow};
use sqlite::{Alter, Error, Row, Transaction, params};

/// The rowids of the rows of a child's present school, of which there is one at the most.
fn found<S: Alter>(tx: &mut Transaction<'_, S>, child: ChildNo) -> Result<Vec<Row>, Error>
    ensures same_reference { tx.new.conn.ghost_name ≡ tx.old.conn.ghost_name }
    ensures shown { HasCleanDisk (state S.Store tx.new.conn.now) → IfOk result (λ rows. Shown find_present (moved_key child) (state S.Store tx.old.conn.now) (state S.Store tx.new.conn.now) rows.items) }
    ensures survives { Survives (state S.Store tx.old.conn.now) (state S.Store tx.new.conn.now) (λ _. ⊥) }
{
    let number = child.get();
    let rows = tx.query_all(find_present(), params![number, 0])?;
    Ok(rows)
}

pub(crate) struct DeletePresent;

impl Statement for DeletePresent {
    type Item = ChildNo;

    ghost kind = { Drops };

    ghost table = { present };

    ghost row_of = { moved_key };

    fn run<S: Alter>(tx: &mut Transaction<'_, S>, child: &ChildNo) -> Result<(), Error> {
        let rows = found(tx, *child)?;
        match rows.as_slice().split_first() {
            None => Ok(()),
            Some((row, others)) if others.is_empty() => cut_found(tx, delete_present(), row),
            Some(_) => Err(Error::QueryReturnedNoRows),
        }
    }
}

pub(crate) struct AddPresent;

impl Statement for AddPresent {
    type Item = PresentRow;

    ghost kind = { Adds };

    ghost table = { present };

    ghost row_of = { present_columns };

    fn run<S: Alter>(tx: &mut Transaction<'_, S>, row: &PresentRow) -> Result<(), Error> {
        let child = row.child.get();
        let school = row.school.as_str();
        tx.execute(insert_present(), params![child, row.is_imported, school])?;
        Ok(())
    }
}
