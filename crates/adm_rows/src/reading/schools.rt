// The rows of `school` as schools.
ghost use Rattle.std.specs.Prelude.{◌≡◌, ◌↔◌, true, pos, None, [], ◌∷◌, IfOk, IfErr, IsTrue, Some, string_bytes, ℕ, List};
ghost use Rattle.sqlite.specs.declared.types.Value.TheVariants.{Int, Text as TextValue};
ghost use Rattle.std.specs.List.{list_all};
ghost use Rattle.adm_types.specs.Criteria.{is_criterion};
ghost use Rattle.adm_types.specs.declared.criteria.Criterion.{Criterion as Facts};
ghost use Rattle.adm_schema.specs.Schema.{school};
ghost use Rattle.adm_rows.specs.Forms.{criteria_text, criteria_of, school_row};
ghost use Rattle.adm_rows.specs.Faults.{IsSchool, IsReadAgain, HasSchoolColumns};

use crate::lists;
use crate::reading::columns::value_at;
use crate::reading::reader::Reader;
use adm_register::RowsFault;
use adm_schema::tables::schools::select_schools;
use adm_types::{Criterion, Point, School, SchoolCode, Seq, Text};
use sqlite::Row;
use std::alloc::Global;

/// The criteria that a text writes.
fn read_criteria(alloc: Global, text: &str) -> Result<Vec<Criterion>, RowsFault>
    ensures ok { IfOk result (λ criteria. criteria_of text.now ≡ Some criteria.items) }
    ensures bad { IfErr result (λ e. e ≡ RowsFault.BadRow → criteria_of text.now ≡ None) }
{
    let Ok(read) = lists::criteria_in(alloc, text) else {
        return Err(RowsFault::Memory);
    };
    let Some(criteria) = read else {
        return Err(RowsFault::BadRow);
    };
    Ok(criteria)
}

/// Whether a text is that of these criteria.
fn is_text_of_criteria(alloc: Global, text: &str, criteria: &[Criterion]) -> Result<bool, RowsFault>
    ensures ok { IfOk result (λ same. IsTrue same ↔ (text.now ≡ criteria_text criteria.now)) }
    ensures bad { IfErr result (λ e. e ≡ RowsFault.Memory) }
{
    match lists::criteria_text(alloc, criteria) {
        Ok(again) => Ok(again.as_str() == text),
        Err(_) => Err(RowsFault::Memory),
    }
}

/// The criteria that a text writes, where it is just the text of them.
fn criteria_in(alloc: Global, text: &str) -> Result<Vec<Criterion>, RowsFault>
    ensures ok { IfOk result (λ criteria. text.now ≡ criteria_text criteria.items) }
    ensures again { IfOk result (λ criteria. criteria_of text.now ≡ Some criteria.items) }
    ensures bad { IfErr result (λ e. e ≡ RowsFault.BadRow → (criteria : List Facts) → list_all is_criterion criteria ≡ true → text.now ≡ criteria_text criteria → ⊥) }
{
    let criteria = read_criteria(alloc, text)?;
    let same = is_text_of_criteria(alloc, text, criteria.as_slice())?;
    if same {
        Ok(criteria)
    } else {
        Err(RowsFault::BadRow)
    }
}

/// The columns of a row of `school`.
#[derive(Drop)]
struct SchoolColumns {
    code: String,
    name: String,
    pan: u32,
    east: u32,
    north: u32,
    criteria: String,
}

fn school_columns(row: &Row) -> Result<SchoolColumns, RowsFault>
    ensures ok { IfOk result (λ c. row.now ≡ TextValue (string_bytes c.code) ∷ TextValue (string_bytes c.name) ∷ Int (pos c.pan) ∷ Int (pos c.east) ∷ Int (pos c.north) ∷ TextValue (string_bytes c.criteria) ∷ []) }
    ensures bad { IfErr result (λ e. e ≡ RowsFault.BadRow → (code name criteria : List ℕ) (pan east north : ℕ) → HasSchoolColumns row.now code name criteria pan east north → ⊥) }
{
    if row.column_count() != 6 {
        return Err(RowsFault::BadRow);
    }
    let code = value_at(row, 0)?;
    let name = value_at(row, 1)?;
    let pan = value_at(row, 2)?;
    let east = value_at(row, 3)?;
    let north = value_at(row, 4)?;
    let criteria = value_at(row, 5)?;
    Ok(SchoolColumns {
        code,
        name,
        pan,
        east,
        north,
        criteria,
    })
}

#[derive(Drop)]
pub(super) struct SchoolReader;

impl Reader for SchoolReader {
    type Item = School;

    ghost table = { λ _. school };

    ghost row_of = { school_row };

    ghost Fits = { λ _ x. IsSchool x };

    ghost IsRead = { IsReadAgain };

    fn select(&self) -> &'static str {
        select_schools()
    }

    fn read(&self, alloc: Global, row: &Row) -> Result<School, RowsFault> {
        let columns = school_columns(row)?;
        let Some(code) = SchoolCode::new(&columns.code) else {
            return Err(RowsFault::BadRow);
        };
        let criteria = criteria_in(alloc, &columns.criteria)?;
        Ok(School {
            code,
            name: Text::from_string(columns.name),
            pan: columns.pan,
            at: Point {
                east: columns.east,
                north: columns.north,
            },
            criteria: Seq::from_vec(criteria),
        })
    }
}
