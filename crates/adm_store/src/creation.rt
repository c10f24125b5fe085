// The tables of a new register, made one after another.
ghost use Rattle.std.specs.Prelude.{◌≡◌, ◌<◌, ◌↔◌, false, OnOk, IsTrue, Some, slice_get};
ghost use Rattle.sqlite.specs.Held.{state};
ghost use Rattle.sqlite.specs.State.{HasCleanDisk, Survives};
ghost use Rattle.adm_schema.specs.Effects.{SeesNone};
ghost use Rattle.adm_schema.specs.Schema.{no_schema, register_schema};
ghost use Rattle.adm_schema.specs.Creations.{creations};
ghost use Rattle.adm_store.specs.Changes.{RepresentsNew};
ghost use Rattle.adm_store.specs.Creating.{MakesATable};

use crate::rows::SeasonRow;
use crate::season::AddSeason;
use crate::statement::Statement;
use adm_schema::tables::applications::create_application;
use adm_schema::tables::children::{create_child, create_imported};
use adm_schema::tables::draws::{create_draw, create_lot, create_offer};
use adm_schema::tables::left_list::create_left_list;
use adm_schema::tables::meta::create_meta;
use adm_schema::tables::places::create_place;
use adm_schema::tables::present::create_present;
use adm_schema::tables::schools::create_school;
use sqlite::{Alter, Connection, Error, Transaction};
use sqlite_schema::schema::Schema;

/// Whether a database has no table, no index and no view.
pub(crate) fn is_empty(schema: &Schema) -> bool
    ensures { IsTrue result ↔ (schema.now ≡ no_schema) }
{
    schema.tables.as_slice().is_empty()
        && schema.indexes.as_slice().is_empty()
        && schema.views.as_slice().is_empty()
}

/// The text that makes the table of this number, from 0 to 10 in the order in which they are made.
fn creation(at: usize) -> &'static str
    requires { at < 11 }
    ensures { slice_get creations at ≡ Some result.now }
{
    match at {
        0 => create_meta(),
        1 => create_school(),
        2 => create_child(),
        3 => create_application(),
        4 => create_place(),
        5 => create_left_list(),
        6 => create_draw(),
        7 => create_offer(),
        8 => create_lot(),
        9 => create_imported(),
        _ => create_present(),
    }
}

fn create_table<S: Alter>(tx: &mut Transaction<'_, S>, text: &str) -> Result<(), Error>
    ensures same_reference { tx.new.conn.ghost_name ≡ tx.old.conn.ghost_name }
    ensures made { HasCleanDisk (state S.Store tx.new.conn.now) → OnOk result (MakesATable text.now (state S.Store tx.old.conn.now) (state S.Store tx.new.conn.now)) }
    ensures survives { Survives (state S.Store tx.old.conn.now) (state S.Store tx.new.conn.now) (λ _. ⊥) }
{
    tx.execute(text, &[])?;
    Ok(())
}

/// Makes the tables.
fn create_tables<S: Alter>(tx: &mut Transaction<'_, S>) -> Result<(), Error>
    ensures same_reference { tx.new.conn.ghost_name ≡ tx.old.conn.ghost_name }
    ensures made { HasCleanDisk (state S.Store tx.new.conn.now) → SeesNone no_schema (state S.Store tx.old.conn.now) → OnOk result (SeesNone register_schema (state S.Store tx.new.conn.now)) }
    ensures survives { Survives (state S.Store tx.old.conn.now) (state S.Store tx.new.conn.now) (λ _. ⊥) }
{
    'tables: for at in 0..11 {
        create_table(tx, creation(at))?;
    }
    Ok(())
}

/// Makes the tables and the row of a season, in one transaction.
pub(crate) fn build<S: Alter>(conn: &mut Connection<S>, row: &SeasonRow) -> Result<(), Error>
    requires ended { conn.old.in_transaction ≡ false }
    requires empty { conn.old.schema ≡ no_schema }
    ensures ended { conn.new.in_transaction ≡ false }
    ensures committed { HasCleanDisk (state S.Store conn.new) → OnOk result (IsTrue (state S.Store conn.new).is_open × RepresentsNew row.now (state S.Store conn.new).committed.trees) }
    ensures survives { Survives (state S.Store conn.old) (state S.Store conn.new) (RepresentsNew row.now) }
{
    // that the connection sees a database, a call of it says
    let _tables = conn.schema();
    let mut tx = conn.transaction();
    create_tables(&mut tx)?;
    AddSeason::run(&mut tx, row)?;
    tx.commit()
}
