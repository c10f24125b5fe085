// The values of the columns of a row.
ghost use Rattle.std.specs.Prelude.{◌≡◌, ◌≢◌, ◌⊎◌, ◌<◌, ◌^◌, ℕ, Bool, List, Option, true, pos, length, None, IfOk, IfErr, Some};
ghost use Rattle.std.specs.Str.{is_utf8};
ghost use Rattle.sqlite.specs.declared.types.Value.TheVariants.{Null, Int, Text as TextValue};
ghost use Rattle.sqlite.specs.Order.{column};
ghost use Rattle.adm_types.specs.Limits.{is_from, is_child_number, first_day};
ghost use Rattle.adm_rows.specs.Forms.{truth_code, day_value};
ghost use Rattle.adm_rows.specs.Faults.{is_day_or_none};

use adm_register::RowsFault;
use adm_types::{ChildNo, Day, Text};
use sqlite::types::FromSql;
use sqlite::{Error, ErrorCode, Row};

/// A value that is not read is none of a register, unless memory ran out.
fn column_fault(error: Error) -> RowsFault
    ensures { ((error ≡ Error.SqliteFailure ErrorCode.OutOfMemory) × (result ≡ RowsFault.Memory)) ⊎ ((error ≢ Error.SqliteFailure ErrorCode.OutOfMemory) × (result ≡ RowsFault.BadRow)) }
{
    match error {
        Error::SqliteFailure(ErrorCode::OutOfMemory) => RowsFault::Memory,
        _ => RowsFault::BadRow,
    }
}

/// The value of a column.
pub(super) fn value_at<T: FromSql>(row: &Row, at: usize) -> Result<T, RowsFault>
    requires { at < length row.now }
    ensures ok { IfOk result (λ x. T.FromSql.reads_as (column row.now at) x) }
    ensures bad { IfErr result (λ e. (e ≡ RowsFault.Memory) ⊎ ((e ≡ RowsFault.BadRow) × (¬ T.FromSql.is_readable (column row.now at)))) }
{
    match row.get(at) {
        Ok(value) => Ok(value),
        Err(error) => Err(column_fault(error)),
    }
}

/// A text.
pub(super) fn text_at(row: &Row, at: usize) -> Result<Text, RowsFault>
    requires { at < length row.now }
    ensures ok { IfOk result (λ text. column row.now at ≡ TextValue text) }
    ensures bad { IfErr result (λ e. e ≡ RowsFault.BadRow → (text : List ℕ) → is_utf8 text ≡ true → column row.now at ≡ TextValue text → ⊥) }
{
    let text = value_at(row, at)?;
    Ok(Text::from_string(text))
}

/// A number below 2^32.
pub(super) fn number_at(row: &Row, at: usize) -> Result<u32, RowsFault>
    requires { at < length row.now }
    ensures ok { IfOk result (λ n. column row.now at ≡ Int (pos n)) }
    ensures bad { IfErr result (λ e. e ≡ RowsFault.BadRow → (n : ℕ) → n < 2 ^ 32 → column row.now at ≡ Int (pos n) → ⊥) }
{
    value_at(row, at)
}

/// The number of a child.
pub(super) fn child_at(row: &Row, at: usize) -> Result<ChildNo, RowsFault>
    requires { at < length row.now }
    ensures ok { IfOk result (λ child. column row.now at ≡ Int (pos child)) }
    ensures bad { IfErr result (λ e. e ≡ RowsFault.BadRow → (n : ℕ) → is_child_number n ≡ true → column row.now at ≡ Int (pos n) → ⊥) }
{
    let number = number_at(row, at)?;
    let Some(child) = ChildNo::new(number) else {
        return Err(RowsFault::BadRow);
    };
    Ok(child)
}

/// A truth value, 0 or 1.
pub(super) fn truth_at(row: &Row, at: usize) -> Result<bool, RowsFault>
    requires { at < length row.now }
    ensures ok { IfOk result (λ truth. column row.now at ≡ Int (pos (truth_code truth))) }
    ensures bad { IfErr result (λ e. e ≡ RowsFault.BadRow → (truth : Bool) → column row.now at ≡ Int (pos (truth_code truth)) → ⊥) }
{
    let number = number_at(row, at)?;
    match number {
        0 => Ok(false),
        1 => Ok(true),
        _ => Err(RowsFault::BadRow),
    }
}

/// Sixteen flags.
pub(super) fn flags_at(row: &Row, at: usize) -> Result<u16, RowsFault>
    requires { at < length row.now }
    ensures ok { IfOk result (λ flags. column row.now at ≡ Int (pos flags)) }
    ensures bad { IfErr result (λ e. e ≡ RowsFault.BadRow → (flags : ℕ) → flags < 65536 → column row.now at ≡ Int (pos flags) → ⊥) }
{
    let number = number_at(row, at)?;
    if number > 65535 {
        return Err(RowsFault::BadRow);
    }
    Ok(number as u16)
}

/// A day that is not after `last`.
pub(super) fn day_at(row: &Row, at: usize, last: Day) -> Result<Day, RowsFault>
    requires { at < length row.now }
    ensures ok { IfOk result (λ day. column row.now at ≡ Int (pos day)) }
    ensures bad { IfErr result (λ e. e ≡ RowsFault.BadRow → (day : ℕ) → is_from first_day last day ≡ true → column row.now at ≡ Int (pos day) → ⊥) }
{
    let number = i64::from(number_at(row, at)?);
    if number > last.number() {
        return Err(RowsFault::BadRow);
    }
    let Some(day) = Day::from_number(number) else {
        return Err(RowsFault::BadRow);
    };
    Ok(day)
}

/// A day, or none where the column is NULL.
pub(super) fn day_or_null_at(row: &Row, at: usize) -> Result<Option<Day>, RowsFault>
    requires { at < length row.now }
    ensures ok { IfOk result (λ day. column row.now at ≡ day_value day) }
    ensures bad { IfErr result (λ e. e ≡ RowsFault.BadRow → (day : Option ℕ) → is_day_or_none day ≡ true → column row.now at ≡ day_value day → ⊥) }
{
    let value: Option<u32> = value_at(row, at)?;
    let Some(number) = value else {
        return Ok(None);
    };
    match Day::from_number(i64::from(number)) {
        Some(day) => Ok(Some(day)),
        None => Err(RowsFault::BadRow),
    }
}
