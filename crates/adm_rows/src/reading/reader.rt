// The rows of tables as values, each read from its columns.
ghost use Rattle.std.specs.Prelude.{◌≡◌, List, map, IsPermutation, IfOk, IfErr, OnOk};
ghost use Rattle.std.specs.List.{AllByRecursion};
ghost use Rattle.sqlite.specs.Held.{state};
ghost use Rattle.sqlite.specs.State.{HasCleanDisk, Survives};
ghost use Rattle.adm_rows.specs.Faults.{IsNoRegister};
ghost use Rattle.adm_rows.specs.Causes.{DiskFailed};
ghost use Rattle.adm_rows.specs.Reads.{Finds, SeesTheSame, Holds};

use crate::OpenFault;
use crate::reading::queries::query;
use adm_register::RowsFault;
use adm_types::Seq;
use sqlite::{Alter, Row, Transaction};
use std::alloc::Global;

/// What reads the rows of one table.
pub(super) trait Reader {
    ghost use Rattle.sqlite.specs.Order.{Row as Columns};
    ghost use Rattle.sqlite.specs.Table.{Table};
    ghost use Rattle.adm_schema.specs.declared.version.Version.{Version};
    ghost use Rattle.adm_rows.specs.Reads.{AsksAll};

    /// What a row is read as.
    type Item: Drop;

    ghost table: { Self → Table };

    // The row that is written for a value.
    ghost row_of: { Self.Item → Columns };

    // What each value of a register keeps, by itself.
    ghost Fits: { Self → Self.Item → Type 0 };

    // What is known of a value that was read, beside its row.
    ghost IsRead: { Self.Item → Type 0 };

    /// The query of its rows.
    fn select(&self) -> &'static str
        ensures { (v : Version) → AsksAll v (table self.now) result.now };

    fn read(&self, alloc: Global, row: &Row) -> Result<Self::Item, RowsFault>
        ensures ok { IfOk result (λ x. row.now ≡ row_of x) }
        ensures again { IfOk result IsRead }
        ensures bad { IfErr result (λ e. e ≡ RowsFault.BadRow → (x : Self.Item) → Fits self.now x → row.now ≡ row_of x → ⊥) };
}

/// The values of these rows.
fn all_in<R: Reader>(alloc: Global, reader: &R, rows: &[Row]) -> Result<Vec<R::Item>, RowsFault>
    ensures ok { IfOk result (λ all. map R.row_of all.items ≡ rows.now) }
    ensures again { IfOk result (λ all. AllByRecursion R.IsRead all.items) }
    ensures bad { IfErr result (λ e. e ≡ RowsFault.BadRow → (all : List R.Item) → AllByRecursion (R.Fits reader.now) all → IsPermutation (map R.row_of all) rows.now → ⊥) }
{
    let mut all = Vec::new(alloc);
    'rows: for row in rows {
        let one = reader.read(alloc, row)?;
        if all.push(one).is_err() {
            return Err(RowsFault::Memory);
        }
    }
    Ok(all)
}

/// What reads tables one after another: `()` none, and `(reader, readers)` that of a reader and then those of the others.
pub(super) trait Readers {
    ghost use Rattle.sqlite.specs.Tree.{Trees};

    /// The values of each table, in the same order.
    type Items: Drop;

    // Each table has the rows of its values, and no other row.
    ghost AreHeld: { Self → Self.Items → Trees → Type 0 };

    ghost Fit: { Self → Self.Items → Type 0 };

    ghost AreRead: { Self.Items → Type 0 };

    fn read_all<S: Alter>(
        &self,
        alloc: Global,
        tx: &mut Transaction<'_, S>,
    ) -> Result<Self::Items, OpenFault>
        ensures same_reference { tx.new.conn.ghost_name ≡ tx.old.conn.ghost_name }
        ensures ok { IfOk result (λ all. Finds (AreHeld self.now all) (state S.Store tx.old.conn.now) (state S.Store tx.new.conn.now)) }
        ensures again { IfOk result AreRead }
        ensures same { OnOk result (SeesTheSame (state S.Store tx.old.conn.now) (state S.Store tx.new.conn.now)) }
        ensures bad { IfErr result (λ e. IsNoRegister e → (all : Self.Items) → Fit self.now all → Finds (λ db. ¬ AreHeld self.now all db) (state S.Store tx.old.conn.now) (state S.Store tx.new.conn.now)) }
        ensures first { HasCleanDisk (state S.Store tx.new.conn.now) → IfErr result (λ e. IsNoRegister e → e ≡ OpenFault.BadRow) }
        ensures disk { IfErr result (λ e. e ≡ OpenFault.Disk → DiskFailed (state S.Store tx.old.conn.now) (state S.Store tx.new.conn.now)) }
        ensures survives { Survives (state S.Store tx.old.conn.now) (state S.Store tx.new.conn.now) (λ _. ⊥) };
}

impl Readers for () {
    type Items = ();

    ghost AreHeld = { λ _ _ _. Unit {0} };

    ghost Fit = { λ _ _. Unit {0} };

    ghost AreRead = { λ _. Unit {0} };

    fn read_all<S: Alter>(
        &self,
        _alloc: Global,
        _tx: &mut Transaction<'_, S>,
    ) -> Result<(), OpenFault> {
        Ok(())
    }
}

impl<R: Reader, Others: Readers> Readers for (R, Others) {
    type Items = (Seq<R::Item>, Others::Items);

    ghost AreHeld = { λ readers all db. Holds (R.table readers.0) R.row_of all.0 db × Others.AreHeld readers.1 all.1 db };

    ghost Fit = { λ readers all. AllByRecursion (R.Fits readers.0) all.0 × Others.Fit readers.1 all.1 };

    ghost AreRead = { λ all. AllByRecursion R.IsRead all.0 × Others.AreRead all.1 };

    fn read_all<S: Alter>(
        &self,
        alloc: Global,
        tx: &mut Transaction<'_, S>,
    ) -> Result<(Seq<R::Item>, Others::Items), OpenFault> {
        let (reader, readers) = self;
        let rows = query(tx, reader.select(), OpenFault::BadRow)?;
        let all = all_in(alloc, reader, rows.as_slice())?;
        let others = readers.read_all(alloc, tx)?;
        Ok((Seq::from_vec(all), others))
    }
}
