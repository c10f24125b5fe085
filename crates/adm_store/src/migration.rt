// A file of the first version made one of the second.
ghost use Rattle.std.specs.Prelude.{◌≡◌, false, OnOk};
ghost use Rattle.sqlite.specs.Held.{state};
ghost use Rattle.sqlite.specs.State.{HasCleanDisk, Survives};
ghost use Rattle.adm_register.specs.State.{State as RegisterFacts};
ghost use Rattle.adm_schema.specs.declared.version.Version.TheVariants.{First, Second};
ghost use Rattle.adm_store.specs.Migration.{MakesPresent, MakesSecond, Migrates};
ghost use Rattle.adm_rows.specs.Represents.{RepresentsIn, LeavesAll};

use adm_schema::tables::meta::mark_version;
use adm_schema::tables::present::create_present;
use sqlite::{Alter, Connection, Error, Transaction};

/// Makes the table of the present schools.
fn add_present<S: Alter>(tx: &mut Transaction<'_, S>) -> Result<(), Error>
    ensures same_reference { tx.new.conn.ghost_name ≡ tx.old.conn.ghost_name }
    ensures made { HasCleanDisk (state S.Store tx.new.conn.now) → OnOk result (MakesPresent (state S.Store tx.old.conn.now) (state S.Store tx.new.conn.now)) }
    ensures survives { Survives (state S.Store tx.old.conn.now) (state S.Store tx.new.conn.now) (λ _. ⊥) }
{
    tx.execute(create_present(), &[])?;
    Ok(())
}

/// Sets the version in the row of `meta`.
fn mark_second<S: Alter>(tx: &mut Transaction<'_, S>) -> Result<(), Error>
    ensures same_reference { tx.new.conn.ghost_name ≡ tx.old.conn.ghost_name }
    ensures marked { HasCleanDisk (state S.Store tx.new.conn.now) → OnOk result (MakesSecond (state S.Store tx.old.conn.now) (state S.Store tx.new.conn.now)) }
    ensures survives { Survives (state S.Store tx.old.conn.now) (state S.Store tx.new.conn.now) (λ _. ⊥) }
{
    tx.execute(mark_version(), &[])?;
    Ok(())
}

/// Makes a file of the first version one of the second, which represents the same register, in one
/// transaction. What it costs does not grow.
pub(crate) fn migrate<S: Alter>(conn: &mut Connection<S>) -> Result<(), Error>
    requires ended { conn.old.in_transaction ≡ false }
    ensures ended { conn.new.in_transaction ≡ false }
    ensures committed { HasCleanDisk (state S.Store conn.new) → OnOk result (Migrates (state S.Store conn.old) (state S.Store conn.new)) }
    ensures survives { (r : RegisterFacts) → LeavesAll First r (state S.Store conn.old) → Survives (state S.Store conn.old) (state S.Store conn.new) (λ db. RepresentsIn Second db r) }
{
    // stated for the proof: no transaction is open
    let at_rest = conn.is_autocommit();
    prove!(at_rest);
    // that the connection sees a database, a call of it says
    let _tables = conn.schema();
    let mut tx = conn.transaction();
    add_present(&mut tx)?;
    mark_second(&mut tx)?;
    tx.commit()
}
