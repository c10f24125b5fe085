// The rows of `application` as applications.
ghost use Rattle.adm_schema.specs.Schema.{application};
ghost use Rattle.adm_rows.specs.Forms.{application_row};
ghost use Rattle.adm_rows.specs.Faults.{IsApplication, AreReadAgain};

use crate::reading::fields::values_in;
use crate::reading::reader::Reader;
use adm_fields::{ApplicationFields, application_of};
use adm_register::RowsFault;
use adm_schema::tables::applications::select_applications;
use adm_types::{Application, Day};
use sqlite::Row;
use std::alloc::Global;

#[derive(Drop)]
pub(super) struct ApplicationReader {
    /// The last day of an application.
    pub(super) last: Day,
}

impl Reader for ApplicationReader {
    type Item = Application;

    ghost table = { λ _. application };

    ghost row_of = { application_row };

    ghost Fits = { λ reader x. IsApplication reader.last x };

    ghost IsRead = { λ x. AreReadAgain x.list };

    fn select(&self) -> &'static str {
        select_applications()
    }

    fn read(&self, alloc: Global, row: &Row) -> Result<Application, RowsFault> {
        let values = values_in::<ApplicationFields>(alloc, row, self.last)?;
        Ok(application_of(values))
    }
}
