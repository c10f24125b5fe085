// The rows of `draw` as draws without their outcomes and lots.
ghost use Rattle.adm_schema.specs.Schema.{draw};
ghost use Rattle.adm_rows.specs.DrawForms.{draw_row, IsDrawRow};

use crate::reading::codes::code_or_null_at;
use crate::reading::columns::{day_at, number_at};
use crate::reading::reader::Reader;
use adm_register::RowsFault;
use adm_schema::tables::draws::select_draws;
use adm_types::{Day, DrawRow};
use sqlite::Row;
use std::alloc::Global;

/// What reads the draws of a season whose lists are kept up to `last`.
#[derive(Drop)]
pub(super) struct DrawReader {
    pub(super) last: Day,
}

impl Reader for DrawReader {
    type Item = DrawRow;

    ghost table = { λ _. draw };

    ghost row_of = { draw_row };

    ghost Fits = { λ reader x. IsDrawRow reader.last x };

    ghost IsRead = { λ _. Unit {0} };

    fn select(&self) -> &'static str {
        select_draws()
    }

    fn read(&self, _alloc: Global, row: &Row) -> Result<DrawRow, RowsFault> {
        if row.column_count() != 4 {
            return Err(RowsFault::BadRow);
        }
        let draw = number_at(row, 0)?;
        let round = number_at(row, 1)?;
        let school = code_or_null_at(row, 2)?;
        let day = day_at(row, 3, self.last)?;
        Ok(DrawRow {
            draw,
            round,
            school,
            day,
        })
    }
}
