// The table `child`. A row that changed replaces the one of the same child, and one that is new is added; none is deleted.
ghost use Rattle.adm_schema.specs.Schema.{child};
ghost use Rattle.adm_store.specs.Changes.{written_child};
ghost use Rattle.adm_store.specs.Writes.{Puts};

use crate::lent::run_rows;
use crate::rows::ChildRow;
use crate::statement::{EightRows, Keyed, Statement, run_all};
use crate::to_rows::HomeRow;
use crate::written::{RowValues, run_row};
use adm_schema::tables::children::{insert_child, insert_children, put_child};
use sqlite::types::ValueRef;
use sqlite::{Alter, Error, Transaction};

pub(crate) struct PutChild;

impl Statement for PutChild {
    type Item = ChildRow;

    ghost kind = { Puts };

    ghost table = { child };

    ghost row_of = { written_child };

    fn run<S: Alter>(tx: &mut Transaction<'_, S>, row: &ChildRow) -> Result<(), Error> {
        run_row(tx, put_child(), &row.columns)
    }
}

/// Writes a child that was not there: it fails where one was.
pub(crate) struct AddChild;

impl Statement for AddChild {
    type Item = ChildRow;

    ghost kind = { Puts };

    ghost table = { child };

    ghost row_of = { written_child };

    fn run<S: Alter>(tx: &mut Transaction<'_, S>, row: &ChildRow) -> Result<(), Error> {
        run_row(tx, insert_child(), &row.columns)
    }
}

impl RowValues for ChildRow {
    ghost count = { ⟦<HomeRow<()> as RowValues>⟧.count };

    ghost row_of = { written_child };

    fn lend_at<'v>(&'v self, parameters: &mut [ValueRef<'v>], at: usize) {
        self.columns.lend_at(parameters, at)
    }

    fn count() -> usize {
        <HomeRow<()> as RowValues>::count()
    }
}

impl EightRows for AddChild {
    fn run_eight<S: Alter>(tx: &mut Transaction<'_, S>, rows: &[ChildRow]) -> Result<(), Error> {
        run_rows(tx, insert_children(), rows)
    }
}

impl Keyed for PutChild {
    fn add_all<S: Alter>(tx: &mut Transaction<'_, S>, rows: &[ChildRow]) -> Result<(), Error> {
        run_all::<AddChild, S>(tx, rows)
    }
}
