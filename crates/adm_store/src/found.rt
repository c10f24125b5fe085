// A row whose key is no integer: it is found by its key, and deleted by its rowid.
ghost use Rattle.std.specs.Prelude.{◌≡◌, OnOk};
ghost use Rattle.sqlite.specs.Held.{state};
ghost use Rattle.sqlite.specs.State.{HasCleanDisk, Survives};
ghost use Rattle.adm_store.specs.Found.{DeletesFound};

use sqlite::{Alter, Error, Row, Transaction, params};

/// Takes out the one row whose rowid was found, by a text that deletes by the rowid.
pub(crate) fn cut_found<S: Alter>(
    tx: &mut Transaction<'_, S>,
    text: &str,
    row: &Row,
) -> Result<(), Error>
    ensures same_reference { tx.new.conn.ghost_name ≡ tx.old.conn.ghost_name }
    ensures runs { HasCleanDisk (state S.Store tx.new.conn.now) → OnOk result (DeletesFound text.now row.now (state S.Store tx.old.conn.now) (state S.Store tx.new.conn.now)) }
    ensures survives { Survives (state S.Store tx.old.conn.now) (state S.Store tx.new.conn.now) (λ _. ⊥) }
{
    let rowid: i64 = row.get(0)?;
    let count = tx.execute(text, params![rowid])?;
    if count == 1 {
        Ok(())
    } else {
        Err(Error::QueryReturnedNoRows)
    }
}
