// The rows of `offer` as outcomes of draws.
ghost use Rattle.adm_schema.specs.Schema.{offer};
ghost use Rattle.adm_rows.specs.DrawForms.{offer_row, IsOfferRow};

use crate::reading::codes::code_or_null_at;
use crate::reading::columns::{child_at, number_at, truth_at};
use crate::reading::reader::Reader;
use adm_register::RowsFault;
use adm_schema::tables::draws::select_offers;
use adm_types::{OfferRow, Outcome};
use sqlite::Row;
use std::alloc::Global;

#[derive(Drop)]
pub(super) struct OfferReader;

impl Reader for OfferReader {
    type Item = OfferRow;

    ghost table = { λ _. offer };

    ghost row_of = { offer_row };

    ghost Fits = { λ _ x. IsOfferRow x };

    ghost IsRead = { λ _. Unit {0} };

    fn select(&self) -> &'static str {
        select_offers()
    }

    fn read(&self, _alloc: Global, row: &Row) -> Result<OfferRow, RowsFault> {
        if row.column_count() != 4 {
            return Err(RowsFault::BadRow);
        }
        let draw = number_at(row, 0)?;
        let child = child_at(row, 1)?;
        let school = code_or_null_at(row, 2)?;
        let fresh = truth_at(row, 3)?;
        Ok(OfferRow {
            draw,
            outcome: Outcome {
                child,
                school,
                fresh,
            },
        })
    }
}
