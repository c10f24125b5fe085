// The rows of `child` as children.
ghost use Rattle.adm_schema.specs.Schema.{child};
ghost use Rattle.adm_rows.specs.Forms.{child_row};
ghost use Rattle.adm_rows.specs.Faults.{IsChild, IsChildReadAgain};

use crate::reading::fields::values_in;
use crate::reading::reader::Reader;
use adm_fields::{ChildColumns, home_of};
use adm_register::RowsFault;
use adm_schema::tables::children::select_children;
use adm_types::{Child, Day};
use sqlite::Row;
use std::alloc::Global;

/// What reads the children of a season whose lists are kept up to `last`.
#[derive(Drop)]
pub(super) struct ChildReader {
    pub(super) last: Day,
}

impl Reader for ChildReader {
    type Item = Child;

    ghost table = { λ _. child };

    ghost row_of = { child_row };

    ghost Fits = { λ _ x. IsChild x };

    ghost IsRead = { IsChildReadAgain };

    fn select(&self) -> &'static str {
        select_children()
    }

    fn read(&self, alloc: Global, row: &Row) -> Result<Child, RowsFault> {
        let values = values_in::<ChildColumns>(alloc, row, self.last)?;
        Ok(home_of(values))
    }
}
