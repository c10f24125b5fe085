// The rows of `left_list` as pairs of a child and a school that it left.
ghost use Rattle.adm_schema.specs.Schema.{left_list};
ghost use Rattle.adm_rows.specs.Forms.{left_row};
ghost use Rattle.adm_rows.specs.Faults.{IsLeftRow};

use crate::reading::codes::code_at;
use crate::reading::columns::child_at;
use crate::reading::reader::Reader;
use adm_register::RowsFault;
use adm_schema::tables::left_list::select_left_list;
use adm_types::LeftPair;
use sqlite::Row;
use std::alloc::Global;

#[derive(Drop)]
pub(super) struct LeftReader;

impl Reader for LeftReader {
    type Item = LeftPair;

    ghost table = { λ _. left_list };

    ghost row_of = { left_row };

    ghost Fits = { λ _ x. IsLeftRow x };

    ghost IsRead = { λ _. Unit {0} };

    fn select(&self) -> &'static str {
        select_left_list()
    }

    fn read(&self, _alloc: Global, row: &Row) -> Result<LeftPair, RowsFault> {
        if row.column_count() != 2 {
            return Err(RowsFault::BadRow);
        }
        let child = child_at(row, 0)?;
        let school = code_at(row, 1)?;
        Ok(LeftPair { child, school })
    }
}
