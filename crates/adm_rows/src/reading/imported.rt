// The rows of `imported` as imported rows.
ghost use Rattle.adm_schema.specs.Schema.{imported};
ghost use Rattle.adm_rows.specs.Forms.{imported_row};
ghost use Rattle.adm_rows.specs.Faults.{IsImportRow, IsImportReadAgain};

use crate::reading::fields::values_in;
use crate::reading::reader::Reader;
use adm_fields::{ImportColumns, bare_import_of};
use adm_register::RowsFault;
use adm_schema::tables::children::select_imported;
use adm_types::{Day, Row as ImportRow};
use sqlite::Row;
use std::alloc::Global;

/// What reads the imported rows of a season whose lists are kept up to `last`.
#[derive(Drop)]
pub(super) struct ImportedReader {
    pub(super) last: Day,
}

impl Reader for ImportedReader {
    type Item = ImportRow;

    ghost table = { λ _. imported };

    ghost row_of = { imported_row };

    ghost Fits = { λ reader x. IsImportRow reader.last x };

    ghost IsRead = { IsImportReadAgain };

    fn select(&self) -> &'static str {
        select_imported()
    }

    fn read(&self, alloc: Global, row: &Row) -> Result<ImportRow, RowsFault> {
        let values = values_in::<ImportColumns>(alloc, row, self.last)?;
        Ok(bare_import_of(values))
    }
}
