// Eight rows as the parameters of a fixed text, one row after another.
ghost use Rattle.std.specs.Prelude.{◌≡◌, ◌++◌, ◌+◌, ◌*◌, ◌≤◌, ◌<◌, take, length, [], ◌∷◌, OnOk};
ghost use Rattle.std.specs.List.{flat_map};
ghost use Rattle.sqlite_value.specs.Value.{owned};
ghost use Rattle.sqlite.specs.Held.{state};
ghost use Rattle.sqlite.specs.State.{Survives};
ghost use Rattle.sqlite.specs.Values.{bound, bound_value};
ghost use Rattle.adm_store.specs.Writes.{RunsText};

use crate::written::RowValues;
use sqlite::types::ValueRef;
use sqlite::{Alter, Error, Transaction};

/// Sets the parameter at a place.
pub(crate) fn set_value<'v>(parameters: &mut [ValueRef<'v>], at: usize, value: ValueRef<'v>)
    requires { at < length parameters.old }
    ensures long { length parameters.new ≡ length parameters.old }
    ensures set { bound (take (at + 1) parameters.new) ≡ bound (take at parameters.old) ++ bound_value (owned value.entry) ∷ [] }
{
    parameters[at] = value;
}

/// Sets the parameters from a place on to the values of these rows, and gives the place after them.
fn lend_all<'v, R: RowValues>(rows: &'v [R], parameters: &mut [ValueRef<'v>], at: usize) -> usize
    requires narrow { R.count ≤ 12 }
    requires few { at + length rows.now * 12 ≤ length parameters.old }
    ensures long { length parameters.new ≡ length parameters.old }
    ensures end { result ≤ at + length rows.now * 12 }
    ensures lent { bound (take result parameters.new) ≡ bound (take at parameters.old) ++ flat_map R.row_of rows.now }
{
    match rows.split_first() {
        None => at,
        Some((row, others)) => {
            row.lend_at(parameters, at);
            lend_all(others, parameters, at + R::count())
        }
    }
}

/// Runs a text with the values of eight rows of twelve columns at the most. It takes no memory of its own.
pub(crate) fn run_rows<S: Alter, R: RowValues>(
    tx: &mut Transaction<'_, S>,
    text: &str,
    rows: &[R],
) -> Result<(), Error>
    requires narrow { R.count ≤ 12 }
    requires eight { length rows.now ≡ 8 }
    ensures same_reference { tx.new.conn.ghost_name ≡ tx.old.conn.ghost_name }
    ensures runs { OnOk result (RunsText text.now (flat_map R.row_of rows.now) (state S.Store tx.old.conn.now) (state S.Store tx.new.conn.now)) }
    ensures survives { Survives (state S.Store tx.old.conn.now) (state S.Store tx.new.conn.now) (λ _. ⊥) }
{
    let mut parameters = [ValueRef::Null; 96];
    let end = lend_all(rows, &mut parameters, 0);
    tx.execute(text, &parameters[..end])?;
    Ok(())
}
