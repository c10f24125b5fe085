// The fields of a record, a column each, read by its kind.
ghost use Rattle.std.specs.Prelude.{◌≡◌, ◌↔◌, ◌+◌, ◌<◌, ◌≤◌, ◌^◌, ℕ, suc, List, [], ◌∷◌, true, pos, length, IsTrue, IfOk, IfErr, refl};
ghost use Rattle.std.specs.List.{list_all};
ghost use Rattle.std.specs.Str.{is_utf8};
ghost use Rattle.sqlite.specs.declared.types.Value.{Value};
ghost use Rattle.sqlite.specs.declared.types.Value.TheVariants.{Int, Text as TextValue};
ghost use Rattle.sqlite.specs.Order.{Row as RowOf, column};
ghost use Rattle.adm_types.specs.Code.{is_code};
ghost use Rattle.adm_types.specs.Limits.{is_from, is_child_number, first_day};
ghost use Rattle.adm_rows.specs.Forms.{truth_code, codes_text, schools_value};
ghost use Rattle.adm_rows.specs.Faults.{HasFrom, AreReadAgain, AreBothReadAgain};

use crate::reading::codes::{codes_at, two_lists_at};
use crate::reading::columns::{child_at, day_at, flags_at, number_at, text_at, truth_at};
use adm_fields::{Field, Fields};
use adm_register::RowsFault;
use adm_types::{ChildNo, Day, SchoolCode, Seq, Text};
use sqlite::Row;
use std::alloc::Global;

/// A kind of value that a column may have, in a season whose lists are kept up to a day.
pub(super) trait Column: Drop {
    // How it is written.
    ghost value: { Self → Value };

    // What each value of a register keeps, by itself.
    ghost Fits: { ℕ → Self → Type 0 };

    // What is known of a value that was read, beside its column.
    ghost IsRead: { Self → Type 0 };

    fn read_at(alloc: Global, row: &Row, at: usize, last: Day) -> Result<Self, RowsFault>
        requires { at < length row.now }
        ensures ok { IfOk result (λ x. column row.now at ≡ value x) }
        ensures again { IfOk result IsRead }
        ensures bad { IfErr result (λ e. e ≡ RowsFault.BadRow → (x : Self) → Fits last x → column row.now at ≡ value x → ⊥) };
}

impl Column for u32 {
    ghost value = { λ n. Int (pos n) };

    ghost Fits = { λ _ n. n < 2 ^ 32 };

    ghost IsRead = { λ _. Unit {0} };

    fn read_at(_alloc: Global, row: &Row, at: usize, _last: Day) -> Result<u32, RowsFault> {
        number_at(row, at)
    }
}

impl Column for ChildNo {
    ghost value = { λ n. Int (pos n) };

    ghost Fits = { λ _ n. is_child_number n ≡ true };

    ghost IsRead = { λ _. Unit {0} };

    fn read_at(_alloc: Global, row: &Row, at: usize, _last: Day) -> Result<ChildNo, RowsFault> {
        child_at(row, at)
    }
}

impl Column for Text {
    ghost value = { TextValue };

    ghost Fits = { λ _ text. is_utf8 text ≡ true };

    ghost IsRead = { λ _. Unit {0} };

    fn read_at(_alloc: Global, row: &Row, at: usize, _last: Day) -> Result<Text, RowsFault> {
        text_at(row, at)
    }
}

impl Column for bool {
    ghost value = { λ truth. Int (pos (truth_code truth)) };

    ghost Fits = { λ _ _. Unit {0} };

    ghost IsRead = { λ _. Unit {0} };

    fn read_at(_alloc: Global, row: &Row, at: usize, _last: Day) -> Result<bool, RowsFault> {
        truth_at(row, at)
    }
}

/// Sixteen flags.
impl Column for u16 {
    ghost value = { λ flags. Int (pos flags) };

    ghost Fits = { λ _ flags. flags < 65536 };

    ghost IsRead = { λ _. Unit {0} };

    fn read_at(_alloc: Global, row: &Row, at: usize, _last: Day) -> Result<u16, RowsFault> {
        flags_at(row, at)
    }
}

impl Column for Day {
    ghost value = { λ day. Int (pos day) };

    ghost Fits = { λ last day. is_from first_day last day ≡ true };

    ghost IsRead = { λ _. Unit {0} };

    fn read_at(_alloc: Global, row: &Row, at: usize, last: Day) -> Result<Day, RowsFault> {
        day_at(row, at, last)
    }
}

impl Column for Seq<SchoolCode> {
    ghost value = { λ codes. TextValue (codes_text codes) };

    ghost Fits = { λ _ codes. list_all is_code codes ≡ true };

    ghost IsRead = { AreReadAgain };

    fn read_at(
        alloc: Global,
        row: &Row,
        at: usize,
        _last: Day,
    ) -> Result<Seq<SchoolCode>, RowsFault> {
        codes_at(alloc, row, at)
    }
}

/// The schools of siblings, and catchment schools.
impl Column for (Seq<SchoolCode>, Seq<SchoolCode>) {
    ghost value = { schools_value };

    ghost Fits = { λ _ lists. (list_all is_code lists.0 ≡ true) × (list_all is_code lists.1 ≡ true) };

    ghost IsRead = { AreBothReadAgain };

    fn read_at(
        alloc: Global,
        row: &Row,
        at: usize,
        _last: Day,
    ) -> Result<(Seq<SchoolCode>, Seq<SchoolCode>), RowsFault> {
        two_lists_at(alloc, row, at)
    }
}

/// Fields of a record, of which the first is in a column.
pub(super) trait Columns: Fields {
    ghost count: { ℕ };

    // The row that is written for the values.
    ghost row_of: { Self.Values → RowOf };

    // What the values of a register keep, each by itself.
    ghost Fit: { ℕ → Self.Values → Type 0 };

    ghost AreRead: { Self.Values → Type 0 };

    fn read_from(alloc: Global, row: &Row, at: usize, last: Day) -> Result<Self::Values, RowsFault>
        requires has { at + count ≤ length row.now }
        requires few { at + count < 2 ^ 32 }
        ensures ok { IfOk result (λ xs. HasFrom row.now at (row_of xs)) }
        ensures again { IfOk result AreRead }
        ensures bad { IfErr result (λ e. e ≡ RowsFault.BadRow → (xs : Self.Values) → Fit last xs → HasFrom row.now at (row_of xs) → ⊥) };

    /// Whether there are so many fields.
    fn is_count(width: usize) -> bool
        ensures { IsTrue result ↔ (width ≡ count) };

    ghost counted: { (xs : Self.Values) → length (row_of xs) ≡ count };
}

impl Columns for () {
    ghost count = { 0 };

    ghost row_of = { λ _. [] };

    ghost Fit = { λ _ _. Unit {0} };

    ghost AreRead = { λ _. Unit {0} };

    ghost counted = { λ _. refl };

    fn read_from(_alloc: Global, _row: &Row, _at: usize, _last: Day) -> Result<(), RowsFault> {
        Ok(())
    }

    fn is_count(width: usize) -> bool {
        width == 0
    }
}

impl<F: Field, Others: Columns> Columns for (F, Others)
where
    F::Value: Column,
{
    ghost use Rattle.std.proofs.Common.{ap};

    ghost count = { suc Others.count };

    ghost row_of = { λ xs. F.Value.value xs.0 ∷ Others.row_of xs.1 };

    ghost Fit = { λ last xs. F.Value.Fits last xs.0 × Others.Fit last xs.1 };

    ghost AreRead = { λ xs. F.Value.IsRead xs.0 × Others.AreRead xs.1 };

    ghost counted = { λ xs. ap suc (Others.counted xs.1) };

    fn read_from(
        alloc: Global,
        row: &Row,
        at: usize,
        last: Day,
    ) -> Result<(F::Value, Others::Values), RowsFault> {
        let value = F::Value::read_at(alloc, row, at, last)?;
        let others = Others::read_from(alloc, row, at + 1, last)?;
        Ok((value, others))
    }

    fn is_count(width: usize) -> bool {
        width > 0 && Others::is_count(width - 1)
    }
}

/// The values of a row that has just these columns.
pub(super) fn values_in<L: Columns>(
    alloc: Global,
    row: &Row,
    last: Day,
) -> Result<L::Values, RowsFault>
    requires { L.count < 2 ^ 32 }
    ensures ok { IfOk result (λ xs. row.now ≡ L.row_of xs) }
    ensures again { IfOk result L.AreRead }
    ensures bad { IfErr result (λ e. e ≡ RowsFault.BadRow → (xs : L.Values) → L.Fit last xs → row.now ≡ L.row_of xs → ⊥) }
{
    if !L::is_count(row.column_count()) {
        return Err(RowsFault::BadRow);
    }
    L::read_from(alloc, row, 0, last)
}
