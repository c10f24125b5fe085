// The table `imported`. An imported row stays as it was, so its rows are only added.
ghost use Rattle.adm_schema.specs.Schema.{imported};
ghost use Rattle.adm_store.specs.Changes.{written_imported};
ghost use Rattle.adm_store.specs.Writes.{Adds};

use crate::lent::run_rows;
use crate::rows::ImportedRow;
use crate::statement::{EightRows, Statement};
use crate::to_rows::{HomeRow, WishRow};
use crate::written::{RowValues, run_row};
use adm_schema::tables::children::{insert_imported, insert_imported_rows};
use sqlite::types::ValueRef;
use sqlite::{Alter, Error, Transaction};

pub(crate) struct AddImported;

impl Statement for AddImported {
    type Item = ImportedRow;

    ghost kind = { Adds };

    ghost table = { imported };

    ghost row_of = { written_imported };

    fn run<S: Alter>(tx: &mut Transaction<'_, S>, row: &ImportedRow) -> Result<(), Error> {
        run_row(tx, insert_imported(), &row.columns)
    }
}

impl RowValues for ImportedRow {
    ghost count = { ⟦<HomeRow<WishRow> as RowValues>⟧.count };

    ghost row_of = { written_imported };

    fn lend_at<'v>(&'v self, parameters: &mut [ValueRef<'v>], at: usize) {
        self.columns.lend_at(parameters, at)
    }

    fn count() -> usize {
        <HomeRow<WishRow> as RowValues>::count()
    }
}

impl EightRows for AddImported {
    fn run_eight<S: Alter>(tx: &mut Transaction<'_, S>, rows: &[ImportedRow]) -> Result<(), Error> {
        run_rows(tx, insert_imported_rows(), rows)
    }
}
