// The rows of `place` as places.
ghost use Rattle.std.specs.Prelude.{◌≡◌, ℕ, List, Option, pos, None, [], ◌∷◌, IfOk, IfErr, IfSome};
ghost use Rattle.sqlite.specs.declared.types.Value.TheVariants.{Int, Text as TextValue};
ghost use Rattle.adm_types.specs.declared.rows.PlaceState.{PlaceState as StateFacts};
ghost use Rattle.adm_schema.specs.Schema.{place};
ghost use Rattle.adm_rows.specs.Forms.{place_row, state_columns, day_value};
ghost use Rattle.adm_rows.specs.Faults.{IsPlaceRow, HasPlaceColumns};

use crate::reading::codes::code_at;
use crate::reading::columns::{child_at, day_or_null_at, number_at};
use crate::reading::reader::Reader;
use adm_register::RowsFault;
use adm_schema::tables::places::select_places;
use adm_types::{ChildNo, Day, Place, PlaceRow, PlaceState, SchoolCode};
use sqlite::Row;
use std::alloc::Global;

/// The columns of a row of `place`.
struct PlaceColumns {
    child: ChildNo,
    school: SchoolCode,
    kind: u32,
    day: Option<Day>,
    reminded: Option<Day>,
}

fn place_columns(row: &Row) -> Result<PlaceColumns, RowsFault>
    ensures ok { IfOk result (λ c. row.now ≡ Int (pos c.child) ∷ TextValue c.school ∷ Int (pos c.kind) ∷ day_value c.day ∷ day_value c.reminded ∷ []) }
    ensures bad { IfErr result (λ e. e ≡ RowsFault.BadRow → (child kind : ℕ) (code : List ℕ) (day reminded : Option ℕ) → HasPlaceColumns row.now child code kind day reminded → ⊥) }
{
    if row.column_count() != 5 {
        return Err(RowsFault::BadRow);
    }
    let child = child_at(row, 0)?;
    let school = code_at(row, 1)?;
    let kind = number_at(row, 2)?;
    let day = day_or_null_at(row, 3)?;
    let reminded = day_or_null_at(row, 4)?;
    Ok(PlaceColumns {
        child,
        school,
        kind,
        day,
        reminded,
    })
}

/// How the child holds the place.
fn state_of(kind: u32, day: Option<Day>, reminded: Option<Day>) -> Option<PlaceState>
    ensures ok { IfSome result (λ state. state_columns state ≡ Int (pos kind) ∷ day_value day ∷ day_value reminded ∷ []) }
    ensures none { result ≡ None → (state : StateFacts) → state_columns state ≡ Int (pos kind) ∷ day_value day ∷ day_value reminded ∷ [] → ⊥ }
{
    match day {
        Some(day) => {
            if kind == 1 {
                Some(PlaceState::Offered { day, reminded })
            } else {
                None
            }
        }
        None => {
            if reminded.is_some() {
                return None;
            }
            match kind {
                2 => Some(PlaceState::Accepted),
                3 => Some(PlaceState::Plan),
                _ => None,
            }
        }
    }
}

#[derive(Drop)]
pub(super) struct PlaceReader;

impl Reader for PlaceReader {
    type Item = PlaceRow;

    ghost table = { λ _. place };

    ghost row_of = { place_row };

    ghost Fits = { λ _ x. IsPlaceRow x };

    ghost IsRead = { λ _. Unit {0} };

    fn select(&self) -> &'static str {
        select_places()
    }

    fn read(&self, _alloc: Global, row: &Row) -> Result<PlaceRow, RowsFault> {
        let PlaceColumns {
            child,
            school,
            kind,
            day,
            reminded,
        } = place_columns(row)?;
        let Some(state) = state_of(kind, day, reminded) else {
            return Err(RowsFault::BadRow);
        };
        let place = Place { school, state };
        Ok(PlaceRow { child, place })
    }
}
