// Codes of schools in the columns of a row.
ghost use Rattle.std.specs.Prelude.{◌≡◌, ◌<◌, ℕ, List, Option, true, length, None, IfOk, IfErr, Some};
ghost use Rattle.std.specs.List.{list_all};
ghost use Rattle.sqlite.specs.declared.types.Value.TheVariants.{Text as TextValue};
ghost use Rattle.sqlite.specs.Order.{column};
ghost use Rattle.adm_types.specs.Code.{is_code};
ghost use Rattle.adm_types.specs.Joined.{codes_of};
ghost use Rattle.adm_rows.specs.Forms.{codes_text, two_codes_text, two_lists_of, school_value};
ghost use Rattle.adm_types.specs.Limits.{is_code_or_none};
ghost use Rattle.adm_rows.specs.Faults.{AreReadAgain, AreBothReadAgain};

use crate::lists::two_lists;
use crate::reading::columns::value_at;
use adm_register::RowsFault;
use adm_types::{SchoolCode, Seq, codes};
use sqlite::Row;
use std::alloc::Global;

/// The code of a school.
pub(super) fn code_at(row: &Row, at: usize) -> Result<SchoolCode, RowsFault>
    requires { at < length row.now }
    ensures ok { IfOk result (λ code. column row.now at ≡ TextValue code) }
    ensures bad { IfErr result (λ e. e ≡ RowsFault.BadRow → (code : List ℕ) → is_code code ≡ true → column row.now at ≡ TextValue code → ⊥) }
{
    let text: String = value_at(row, at)?;
    let Some(code) = SchoolCode::new(&text) else {
        return Err(RowsFault::BadRow);
    };
    Ok(code)
}

/// The code of a school, or none where the column is NULL.
pub(super) fn code_or_null_at(row: &Row, at: usize) -> Result<Option<SchoolCode>, RowsFault>
    requires { at < length row.now }
    ensures ok { IfOk result (λ school. column row.now at ≡ school_value school) }
    ensures bad { IfErr result (λ e. e ≡ RowsFault.BadRow → (school : Option (List ℕ)) → is_code_or_none school ≡ true → column row.now at ≡ school_value school → ⊥) }
{
    let value: Option<String> = value_at(row, at)?;
    let Some(text) = value else {
        return Ok(None);
    };
    match SchoolCode::new(&text) {
        Some(code) => Ok(Some(code)),
        None => Err(RowsFault::BadRow),
    }
}

/// The codes that a text writes.
fn codes_in(alloc: Global, text: &str) -> Result<Seq<SchoolCode>, RowsFault>
    ensures ok { IfOk result (λ list. text.now ≡ codes_text list) }
    ensures again { IfOk result (λ list. codes_of text.now ≡ Some list) }
    ensures bad { IfErr result (λ e. e ≡ RowsFault.BadRow → (list : List (List ℕ)) → list_all is_code list ≡ true → text.now ≡ codes_text list → ⊥) }
{
    let Ok(read) = codes(alloc, text) else {
        return Err(RowsFault::Memory);
    };
    let Some(list) = read else {
        return Err(RowsFault::BadRow);
    };
    Ok(list)
}

/// Codes of schools, joined by `;`.
pub(super) fn codes_at(alloc: Global, row: &Row, at: usize) -> Result<Seq<SchoolCode>, RowsFault>
    requires { at < length row.now }
    ensures ok { IfOk result (λ list. column row.now at ≡ TextValue (codes_text list)) }
    ensures again { IfOk result AreReadAgain }
    ensures bad { IfErr result (λ e. e ≡ RowsFault.BadRow → (list : List (List ℕ)) → list_all is_code list ≡ true → column row.now at ≡ TextValue (codes_text list) → ⊥) }
{
    let text: String = value_at(row, at)?;
    codes_in(alloc, &text)
}

/// The two lists of codes that a text writes.
fn two_lists_in(alloc: Global, text: &str) -> Result<(Seq<SchoolCode>, Seq<SchoolCode>), RowsFault>
    ensures ok { IfOk result (λ lists. text.now ≡ two_codes_text lists) }
    ensures again { IfOk result (λ lists. two_lists_of text.now ≡ Some lists) }
    ensures bad { IfErr result (λ e. e ≡ RowsFault.BadRow → (lists : List (List ℕ) × List (List ℕ)) → list_all is_code lists.0 ≡ true → list_all is_code lists.1 ≡ true → text.now ≡ two_codes_text lists → ⊥) }
{
    let Ok(read) = two_lists(alloc, text) else {
        return Err(RowsFault::Memory);
    };
    let Some(lists) = read else {
        return Err(RowsFault::BadRow);
    };
    Ok(lists)
}

/// Codes of schools, joined by `;`, and where there are others after them `|` and these.
pub(super) fn two_lists_at(
    alloc: Global,
    row: &Row,
    at: usize,
) -> Result<(Seq<SchoolCode>, Seq<SchoolCode>), RowsFault>
    requires { at < length row.now }
    ensures ok { IfOk result (λ lists. column row.now at ≡ TextValue (two_codes_text lists)) }
    ensures again { IfOk result AreBothReadAgain }
    ensures bad { IfErr result (λ e. e ≡ RowsFault.BadRow → (lists : List (List ℕ) × List (List ℕ)) → (list_all is_code lists.0 ≡ true) × (list_all is_code lists.1 ≡ true) → column row.now at ≡ TextValue (two_codes_text lists) → ⊥) }
{
    let text: String = value_at(row, at)?;
    two_lists_in(alloc, &text)
}
