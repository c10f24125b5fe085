// Tables of rows by their keys. A changed table is a new one, and the old one stays as it was.
ghost use Rattle.std.specs.Prelude.{◌≡◌, ◌++◌, [], length, map, is_some, IfOk, IfSome, IfNone, OnOk, option_copied};
ghost use Rattle.std.specs.Map.{keys_of, values_of};
ghost use Rattle.std.specs.List.{IsDistinct, filter};
ghost use Rattle.std.specs.List.Sorted.{IsStrictlySortedBy, IsPermutation};
ghost use Rattle.std.specs.Ordering.{eq_by_cmp};
ghost use Rattle.adm_table.specs.Pieces.{rows_of_pieces};
ghost use Rattle.adm_table.specs.TableRows.{row_at, put_at, cut_at};
ghost use Rattle.adm_table.specs.Same.{is_other};

use crate::pieces::Pieces;
use crate::{Keyed, Piece, Same};
use adm_types::{Exact, Seq};
use std::alloc::{AllocError, Global};
use std::collections::BTreeMap;
use std::marker::Model;
use std::rc::Rc;

/// Rows by their keys.
pub struct Table<K: Ord, V> {
    rows: Option<Rc<Pieces<K, V>>>,
}

// Written by hand, and not derived: what lets go of a table then calls this, in place of going
// through its steps.
impl<K: Ord + Drop, V: Drop> Drop for Table<K, V> {
    fn drop(self) {
        let Table { rows: _ } = self;
    }
}

impl<K: Ord, V> Model for Table<K, V> {
    ghost use Rattle.std.specs.Prelude.{List};
    ghost use Rattle.std.specs.Coded.{coded_list, coded×};
    ghost use Rattle.adm_table.specs.TableRows.{table_rows};

    ghost Value = { List (K × V) };

    ghost coded = { coded_list (coded× K.code V.code) };

    ghost view = { λ t. table_rows t.rows };
}

impl<K: Ord, V> Table<K, V> {
    /// A table without rows. It takes no memory.
    pub fn new() -> Self
        ensures { result ≡ [] }
    {
        Table { rows: None }
    }

    /// The row of a key.
    pub fn get(&self, key: &K) -> Option<&V>
        ensures { option_copied result ≡ row_at K.cmp self.now key.now }
    {
        match &self.rows {
            Some(rows) => rows.get(key),
            None => None,
        }
    }

    /// The rows in their pieces. They are in the order of their keys.
    pub fn pieces(&self) -> &[Piece<K, V>]
        ensures rows { rows_of_pieces result.now ≡ self.now }
        ensures ordered { IsStrictlySortedBy K.cmp (keys_of self.now) }
    {
        match &self.rows {
            Some(rows) => rows.as_slice(),
            None => &[],
        }
    }

    /// How many rows there are. They are in the order of their keys.
    pub fn len(&self) -> usize
        ensures value { result ≡ length self.now }
        ensures ordered { IsStrictlySortedBy K.cmp (keys_of self.now) }
    {
        match &self.rows {
            Some(rows) => rows.len(),
            None => 0,
        }
    }
}

impl<K: Ord + Drop, V: Drop> Table<K, V> {
    /// The same rows again, which the two tables share.
    fn share(&self) -> Result<Self, AllocError>
        ensures { IfOk result (λ shared. shared ≡ self.now) }
    {
        match &self.rows {
            Some(rows) => Ok(Table {
                rows: Some(rows.clone()?),
            }),
            None => Ok(Table { rows: None }),
        }
    }
}

impl<K: Ord + Exact, V: Exact> Table<K, V> {
    /// The rows, in the order of their keys.
    pub fn to_vec(&self, alloc: Global) -> Result<Vec<V>, AllocError>
        ensures rows { IfOk result (λ rows. rows.items ≡ values_of self.now) }
        ensures ordered { IsStrictlySortedBy K.cmp (keys_of self.now) }
    {
        let mut copies = Vec::new(alloc);
        for piece in self.pieces() {
            push_copies(&mut copies, piece.rows())?;
        }
        Ok(copies)
    }

    /// The same rows, whose pieces can be changed.
    fn own(&self, alloc: Global) -> Result<Pieces<K, V>, AllocError>
        ensures { IfOk result (λ rows. rows ≡ self.now) }
    {
        match &self.rows {
            Some(rows) => rows.share(alloc),
            None => Ok(Pieces::new(alloc)),
        }
    }
}

impl<K: Ord + Exact, V: Keyed<K> + Exact> Table<K, V> {
    /// The table without the rows of the keys in `cut`, and then with the rows in `put`, each at
    /// its own key. A piece in which rows change is copied once, and the two tables share the
    /// others.
    pub fn with_all(&self, alloc: Global, cut: &[K], put: &[V]) -> Result<Self, AllocError>
        ensures { IfOk result (λ table. (q : K) → row_at K.cmp table q ≡ put_at K.cmp V.key put.now q (cut_at K.cmp cut.now q (row_at K.cmp self.now q))) }
    {
        if cut.is_empty() && put.is_empty() {
            return self.share();
        }
        let rows = cut_all(alloc, self.own(alloc)?, cut)?;
        let rows = put_all(alloc, rows, put)?;
        Ok(Table {
            rows: Some(Rc::new(alloc, rows)?),
        })
    }
}

/// The rows without those of these keys.
fn cut_all<K: Ord + Exact, V: Exact>(
    alloc: Global,
    rows: Pieces<K, V>,
    cut: &[K],
) -> Result<Pieces<K, V>, AllocError>
    ensures { IfOk result (λ left. (q : K) → row_at K.cmp left q ≡ cut_at K.cmp cut.now q (row_at K.cmp rows q)) }
{
    let mut left = rows;
    for key in cut {
        left = left.cut(alloc, key)?;
    }
    Ok(left)
}

/// The rows with these, each at its own key.
fn put_all<K: Ord + Exact, V: Keyed<K> + Exact>(
    alloc: Global,
    rows: Pieces<K, V>,
    put: &[V],
) -> Result<Pieces<K, V>, AllocError>
    ensures { IfOk result (λ all. (q : K) → row_at K.cmp all q ≡ put_at K.cmp V.key put.now q (row_at K.cmp rows q)) }
{
    let mut all = rows;
    for row in put {
        all = all.put(alloc, row.key(), row.clone()?)?;
    }
    Ok(all)
}

impl<K: Ord + Exact, V: Keyed<K> + Exact> Table<K, V> {
    /// The table of these rows by their keys; `None` where two rows have one key.
    pub fn of_rows(alloc: Global, rows: Vec<V>) -> Result<Option<Self>, AllocError>
        ensures made { IfOk result (λ made. IfSome made (λ table. IsPermutation rows.items (values_of table) × (map V.key (values_of table) ≡ keys_of table) × IsStrictlySortedBy K.cmp (keys_of table))) }
        ensures repeated { IfOk result (λ made. IfNone made (IsDistinct (eq_by_cmp K.cmp) (map V.key rows.items) → ⊥)) }
    {
        let mut all = Pieces::new(alloc);
        for row in rows {
            let key = row.key();
            if all.contains_key(&key) {
                return Ok(None);
            }
            all = all.put(alloc, key, row)?;
        }
        Ok(Some(Table {
            rows: Some(Rc::new(alloc, all)?),
        }))
    }
}

impl<K: Ord + Drop, V: Keyed<K> + Same + Exact> Table<K, V> {
    /// Whether the table has not this row.
    fn lacks(&self, row: &V) -> bool
        ensures { result ≡ is_other V.same (row_at K.cmp self.now (V.key row.now)) row.now }
    {
        match self.get(&row.key()) {
            None => true,
            Some(there) => !there.is_same(row),
        }
    }

    /// Those of these rows that the table has not. It takes no memory.
    pub fn lacked(&self, rows: Seq<V>) -> Seq<V>
        ensures { result ≡ filter (λ row. is_other V.same (row_at K.cmp self.now (V.key row)) row) rows }
    {
        let mut rows = rows.into_vec();
        rows.retain(|row| self.lacks(row));
        Seq::from_vec(rows)
    }
}

impl<K: Ord + Drop, V> Table<K, V> {
    /// Those of these keys at which the table has a row. It takes no memory.
    pub fn known(&self, keys: Seq<K>) -> Seq<K>
        ensures { result ≡ filter (λ key. is_some (row_at K.cmp self.now key)) keys }
    {
        let mut keys = keys.into_vec();
        keys.retain(|key| self.get(key).is_some());
        Seq::from_vec(keys)
    }
}

/// Copies of the rows of a map join the others, in the order of its keys.
fn push_copies<K: Ord, V: Exact>(
    copies: &mut Vec<V>,
    rows: &BTreeMap<K, V>,
) -> Result<(), AllocError>
    ensures { OnOk result (copies.new.items ≡ copies.old.items ++ values_of rows.now.entries) }
{
    for row in rows.values() {
        copies.push(row.clone()?)?;
    }
    Ok(())
}
