// Statements that write one row each, or eight, run one after another.
ghost use Rattle.std.specs.Prelude.{◌≡◌, [], ◌∷◌, length, OnOk};
ghost use Rattle.sqlite.specs.Held.{state};
ghost use Rattle.sqlite.specs.State.{Survives};
ghost use Rattle.adm_store.specs.Writes.{write_of, Writes};

use sqlite::{Alter, Error, Transaction};

/// A statement that writes one row of a table, or deletes one.
pub(crate) trait Statement {
    ghost use Rattle.sqlite.specs.Order.{Row};
    ghost use Rattle.sqlite.specs.Table.{Table};
    ghost use Rattle.adm_store.specs.Writes.{Kind};

    /// What it is run for.
    type Item;

    ghost kind: { Kind };

    ghost table: { Table };

    // The row that is written for an item, or the key alone.
    ghost row_of: { Self.Item → Row };

    fn run<S: Alter>(tx: &mut Transaction<'_, S>, item: &Self::Item) -> Result<(), Error>
        ensures same_reference { tx.new.conn.ghost_name ≡ tx.old.conn.ghost_name }
        ensures writes { OnOk result (Writes (write_of kind table row_of (item.now ∷ []) ∷ []) (state S.Store tx.old.conn.now) (state S.Store tx.new.conn.now)) }
        ensures survives { Survives (state S.Store tx.old.conn.now) (state S.Store tx.new.conn.now) (λ _. ⊥) };
}

/// Runs the statement for each of these items.
pub(crate) fn run_each<W: Statement, S: Alter>(
    tx: &mut Transaction<'_, S>,
    items: &[W::Item],
) -> Result<(), Error>
    ensures same_reference { tx.new.conn.ghost_name ≡ tx.old.conn.ghost_name }
    ensures writes { OnOk result (Writes (write_of W.kind W.table W.row_of items.now ∷ []) (state S.Store tx.old.conn.now) (state S.Store tx.new.conn.now)) }
    ensures survives { Survives (state S.Store tx.old.conn.now) (state S.Store tx.new.conn.now) (λ _. ⊥) }
{
    'items: for item in items {
        W::run(tx, item)?;
    }
    Ok(())
}

/// A statement that writes one row of a table, and one that writes eight.
pub(crate) trait EightRows: Statement {
    fn run_eight<S: Alter>(tx: &mut Transaction<'_, S>, items: &[Self::Item]) -> Result<(), Error>
        requires { length items.now ≡ 8 }
        ensures same_reference { tx.new.conn.ghost_name ≡ tx.old.conn.ghost_name }
        ensures writes { OnOk result (Writes (write_of Self.kind Self.table Self.row_of items.now ∷ []) (state S.Store tx.old.conn.now) (state S.Store tx.new.conn.now)) }
        ensures survives { Survives (state S.Store tx.old.conn.now) (state S.Store tx.new.conn.now) (λ _. ⊥) };
}

/// Runs the statements for these items: for eight at a time, and for each of the rest. A statement costs much beside a row.
pub(crate) fn run_all<W: EightRows, S: Alter>(
    tx: &mut Transaction<'_, S>,
    items: &[W::Item],
) -> Result<(), Error>
    ensures same_reference { tx.new.conn.ghost_name ≡ tx.old.conn.ghost_name }
    ensures writes { OnOk result (Writes (write_of W.kind W.table W.row_of items.now ∷ []) (state S.Store tx.old.conn.now) (state S.Store tx.new.conn.now)) }
    ensures survives { Survives (state S.Store tx.old.conn.now) (state S.Store tx.new.conn.now) (λ _. ⊥) }
{
    let mut rest = items;
    'eights: while rest.len() >= 8 {
        let (eight, others) = rest.split_at(8);
        W::run_eight(tx, eight)?;
        rest = others;
    }
    run_each::<W, S>(tx, rest)
}

/// A statement that writes a row over the one of its key, and a way to write rows whose keys are new, which fails where one is not.
pub(crate) trait Keyed: Statement {
    fn add_all<S: Alter>(tx: &mut Transaction<'_, S>, items: &[Self::Item]) -> Result<(), Error>
        ensures same_reference { tx.new.conn.ghost_name ≡ tx.old.conn.ghost_name }
        ensures writes { OnOk result (Writes (write_of Self.kind Self.table Self.row_of items.now ∷ []) (state S.Store tx.old.conn.now) (state S.Store tx.new.conn.now)) }
        ensures survives { Survives (state S.Store tx.old.conn.now) (state S.Store tx.new.conn.now) (λ _. ⊥) };
}

/// Writes the rows of these items: all at once where their keys are new, else by a statement for each. To look for the row of a key costs
/// much beside writing it.
pub(crate) fn put_all<W: Keyed, S: Alter>(
    tx: &mut Transaction<'_, S>,
    items: &[W::Item],
    only_new: bool,
) -> Result<(), Error>
    ensures same_reference { tx.new.conn.ghost_name ≡ tx.old.conn.ghost_name }
    ensures writes { OnOk result (Writes (write_of W.kind W.table W.row_of items.now ∷ []) (state S.Store tx.old.conn.now) (state S.Store tx.new.conn.now)) }
    ensures survives { Survives (state S.Store tx.old.conn.now) (state S.Store tx.new.conn.now) (λ _. ⊥) }
{
    if only_new {
        W::add_all(tx, items)
    } else {
        run_each::<W, S>(tx, items)
    }
}
