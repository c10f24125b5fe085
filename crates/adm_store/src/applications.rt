// The table `application`. A row that changed replaces the one of the same child, one that is new is added, and one that ended is deleted.
ghost use Rattle.adm_schema.specs.Schema.{application};
ghost use Rattle.adm_store.specs.Changes.{written_application};
ghost use Rattle.adm_store.specs.Writes.{Puts, Cuts, key_row};

use crate::lent::run_rows;
use crate::rows::ApplicationRow;
use crate::statement::{EightRows, Keyed, Statement, run_all};
use crate::to_rows::WishRow;
use crate::written::{RowValues, run_row};
use adm_schema::tables::applications::{
    delete_application, insert_application, insert_applications, put_application,
};
use adm_types::ChildNo;
use sqlite::types::ValueRef;
use sqlite::{Alter, Error, Transaction, params};

pub(crate) struct PutApplication;

impl Statement for PutApplication {
    type Item = ApplicationRow;

    ghost kind = { Puts };

    ghost table = { application };

    ghost row_of = { written_application };

    fn run<S: Alter>(tx: &mut Transaction<'_, S>, row: &ApplicationRow) -> Result<(), Error> {
        run_row(tx, put_application(), &row.columns)
    }
}

/// Writes the application of a child that had none: it fails where it had one.
pub(crate) struct AddApplication;

impl Statement for AddApplication {
    type Item = ApplicationRow;

    ghost kind = { Puts };

    ghost table = { application };

    ghost row_of = { written_application };

    fn run<S: Alter>(tx: &mut Transaction<'_, S>, row: &ApplicationRow) -> Result<(), Error> {
        run_row(tx, insert_application(), &row.columns)
    }
}

impl RowValues for ApplicationRow {
    ghost count = { ⟦<(ChildNo, WishRow) as RowValues>⟧.count };

    ghost row_of = { written_application };

    fn lend_at<'v>(&'v self, parameters: &mut [ValueRef<'v>], at: usize) {
        self.columns.lend_at(parameters, at)
    }

    fn count() -> usize {
        <(ChildNo, WishRow) as RowValues>::count()
    }
}

impl EightRows for AddApplication {
    fn run_eight<S: Alter>(
        tx: &mut Transaction<'_, S>,
        rows: &[ApplicationRow],
    ) -> Result<(), Error> {
        run_rows(tx, insert_applications(), rows)
    }
}

impl Keyed for PutApplication {
    fn add_all<S: Alter>(
        tx: &mut Transaction<'_, S>,
        rows: &[ApplicationRow],
    ) -> Result<(), Error> {
        run_all::<AddApplication, S>(tx, rows)
    }
}

pub(crate) struct DeleteApplication;

impl Statement for DeleteApplication {
    type Item = ChildNo;

    ghost kind = { Cuts };

    ghost table = { application };

    ghost row_of = { key_row };

    fn run<S: Alter>(tx: &mut Transaction<'_, S>, child: &ChildNo) -> Result<(), Error> {
        let number = child.get();
        tx.execute(delete_application(), params![number])?;
        Ok(())
    }
}
