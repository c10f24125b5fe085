// Rows as nested pairs of values, which are the parameters of a fixed text.
ghost use Rattle.std.specs.Prelude.{◌≡◌, ◌++◌, ◌+◌, ◌≤◌, ℕ, suc, take, length, List, [], ◌∷◌, pos, Ok, IsTrue, IfOk, OnOk, refl};
ghost use Rattle.sqlite_value.specs.declared.value.Value.{Value as Columned};
ghost use Rattle.sqlite_value.specs.declared.value.Value.TheVariants.{Int, Text as TextValue};
ghost use Rattle.sqlite_value.specs.Value.{owned};
ghost use Rattle.sqlite.specs.Held.{state};
ghost use Rattle.sqlite.specs.Order.{Row as RowOf};
ghost use Rattle.sqlite.specs.State.{HasCleanDisk, ExecutesInside, Survives};
ghost use Rattle.sqlite.specs.Values.{bound, bound_value};
ghost use Rattle.adm_rows.specs.Forms.{truth_code};
ghost use Rattle.adm_store.specs.Writes.{RunsText};

use adm_types::{ChildNo, Day, Text};
use sqlite::types::ValueRef;
use sqlite::{Alter, Error, Transaction};

/// A value as a column takes it.
pub(crate) trait ColumnValue: Drop {
    ghost value: { Self → Columned };

    fn lend(&self) -> ValueRef<'_>
        ensures { owned result ≡ value self.now };

    // It is taken as it is.
    ghost plain: { (x : Self) → bound_value (value x) ≡ value x };
}

impl ColumnValue for u32 {
    ghost value = { λ n. Int (pos n) };

    ghost plain = { λ _. refl };

    fn lend(&self) -> ValueRef<'_> {
        ValueRef::Int(i64::from(*self))
    }
}

impl ColumnValue for ChildNo {
    ghost value = { λ n. Int (pos n) };

    ghost plain = { λ _. refl };

    fn lend(&self) -> ValueRef<'_> {
        ValueRef::Int(i64::from(self.get()))
    }
}

impl ColumnValue for Day {
    ghost value = { λ n. Int (pos n) };

    ghost plain = { λ _. refl };

    fn lend(&self) -> ValueRef<'_> {
        ValueRef::Int(self.number())
    }
}

impl ColumnValue for bool {
    ghost value = { λ truth. Int (pos (truth_code truth)) };

    ghost plain = { λ _. refl };

    fn lend(&self) -> ValueRef<'_> {
        ValueRef::Int(if *self { 1 } else { 0 })
    }
}

/// Sixteen flags.
impl ColumnValue for u16 {
    ghost value = { λ flags. Int (pos flags) };

    ghost plain = { λ _. refl };

    fn lend(&self) -> ValueRef<'_> {
        ValueRef::Int(i64::from(*self))
    }
}

impl ColumnValue for Text {
    ghost value = { TextValue };

    ghost plain = { λ _. refl };

    fn lend(&self) -> ValueRef<'_> {
        ValueRef::Text(self.as_str().as_bytes())
    }
}

/// A row, as a statement takes it: `()` no column, and `(value, values)` a column and then others.
pub(crate) trait RowValues: Drop {
    ghost count: { ℕ };

    ghost row_of: { Self → RowOf };

    /// Sets the parameters from a place on to the values of the row.
    fn lend_at<'v>(&'v self, parameters: &mut [ValueRef<'v>], at: usize)
        requires { at + count ≤ length parameters.old }
        ensures long { length parameters.new ≡ length parameters.old }
        ensures lent { bound (take (at + count) parameters.new) ≡ bound (take at parameters.old) ++ row_of self.now };

    fn count() -> usize
        requires { count ≤ 16 }
        ensures { result ≡ count };
}

impl RowValues for () {
    ghost count = { 0 };

    ghost row_of = { λ _. [] };

    fn lend_at<'v>(&'v self, _parameters: &mut [ValueRef<'v>], _at: usize) {}

    fn count() -> usize {
        0
    }
}

impl<T: ColumnValue, Others: RowValues> RowValues for (T, Others) {
    ghost count = { suc Others.count };

    ghost row_of = { λ xs. T.value xs.0 ∷ Others.row_of xs.1 };

    fn lend_at<'v>(&'v self, parameters: &mut [ValueRef<'v>], at: usize) {
        parameters[at] = self.0.lend();
        self.1.lend_at(parameters, at + 1)
    }

    fn count() -> usize {
        1 + Others::count()
    }
}

/// Runs a text with the values of a row of sixteen columns at the most. It takes no memory of its own.
pub(crate) fn run_row<S: Alter, R: RowValues>(
    tx: &mut Transaction<'_, S>,
    text: &str,
    row: &R,
) -> Result<(), Error>
    requires { R.count ≤ 16 }
    ensures same_reference { tx.new.conn.ghost_name ≡ tx.old.conn.ghost_name }
    ensures runs { OnOk result (RunsText text.now (R.row_of row.now) (state S.Store tx.old.conn.now) (state S.Store tx.new.conn.now)) }
    ensures survives { Survives (state S.Store tx.old.conn.now) (state S.Store tx.new.conn.now) (λ _. ⊥) }
{
    let mut parameters = [ValueRef::Null; 16];
    row.lend_at(&mut parameters, 0);
    tx.execute(text, &parameters[..R::count()])?;
    Ok(())
}
