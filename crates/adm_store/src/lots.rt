// The table `lot`, of the lots of draws. A draw stays as it was, so its rows are only added.
ghost use Rattle.adm_schema.specs.Schema.{lot};
ghost use Rattle.adm_rows.specs.DrawForms.{lot_row};
ghost use Rattle.adm_store.specs.Writes.{Adds};

use crate::lent::{run_rows, set_value};
use crate::statement::{EightRows, Statement};
use crate::written::RowValues;
use adm_schema::tables::draws::{insert_lot, insert_lots};
use adm_types::LotRow;
use sqlite::types::{ToSql, ValueRef};
use sqlite::{Alter, Error, Transaction, params};

pub(crate) struct AddLot;

impl Statement for AddLot {
    type Item = LotRow;

    ghost kind = { Adds };

    ghost table = { lot };

    ghost row_of = { lot_row };

    fn run<S: Alter>(tx: &mut Transaction<'_, S>, row: &LotRow) -> Result<(), Error> {
        let school = row.lot.school.as_str();
        let child = row.lot.child.get();
        tx.execute(insert_lot(), params![row.draw, school, child, row.lot.lot])?;
        Ok(())
    }
}

impl RowValues for LotRow {
    ghost count = { 4 };

    ghost row_of = { lot_row };

    fn lend_at<'v>(&'v self, parameters: &mut [ValueRef<'v>], at: usize) {
        set_value(parameters, at, self.draw.to_sql());
        set_value(parameters, at + 1, self.lot.school.as_str().to_sql());
        set_value(parameters, at + 2, self.lot.child.get().to_sql());
        set_value(parameters, at + 3, self.lot.lot.to_sql());
    }

    fn count() -> usize {
        4
    }
}

impl EightRows for AddLot {
    fn run_eight<S: Alter>(tx: &mut Transaction<'_, S>, rows: &[LotRow]) -> Result<(), Error> {
        run_rows(tx, insert_lots(), rows)
    }
}
