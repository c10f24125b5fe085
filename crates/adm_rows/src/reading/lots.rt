// The rows of `lot` as lots of draws.
ghost use Rattle.adm_schema.specs.Schema.{lot};
ghost use Rattle.adm_rows.specs.DrawForms.{lot_row, IsLotRow};

use crate::reading::codes::code_at;
use crate::reading::columns::{child_at, number_at};
use crate::reading::reader::Reader;
use adm_register::RowsFault;
use adm_schema::tables::draws::select_lots;
use adm_types::{Lot, LotRow};
use sqlite::Row;
use std::alloc::Global;

#[derive(Drop)]
pub(super) struct LotReader;

impl Reader for LotReader {
    type Item = LotRow;

    ghost table = { λ _. lot };

    ghost row_of = { lot_row };

    ghost Fits = { λ _ x. IsLotRow x };

    ghost IsRead = { λ _. Unit {0} };

    fn select(&self) -> &'static str {
        select_lots()
    }

    fn read(&self, _alloc: Global, row: &Row) -> Result<LotRow, RowsFault> {
        if row.column_count() != 4 {
            return Err(RowsFault::BadRow);
        }
        let draw = number_at(row, 0)?;
        let school = code_at(row, 1)?;
        let child = child_at(row, 2)?;
        let lot = number_at(row, 3)?;
        Ok(LotRow {
            draw,
            lot: Lot { school, child, lot },
        })
    }
}
