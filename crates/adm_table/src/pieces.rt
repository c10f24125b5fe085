// Rows by their keys in small pieces, which several tables share.
ghost use Rattle.std.specs.Prelude.{◌≡◌, ◌+◌, ◌≤◌, ◌++◌, if◌then◌else◌, [], length, take, drop, is_some, IfOk, OnOk, option_copied, vec_len};
ghost use Rattle.std.specs.BTreeMap.{insert_entry, is_at};
ghost use Rattle.std.specs.List.{AllByRecursion};
ghost use Rattle.std.specs.List.Sorted.{IsStrictlySortedBy};
ghost use Rattle.std.specs.Map.{keys_of, remove_entry};
ghost use Rattle.std.specs.declared.cmp.Ordering.TheVariants.{Less};
ghost use Rattle.adm_table.specs.TableRows.{row_at};
ghost use Rattle.adm_table.specs.Pieces.{ArePieces, StartsRight, rows_of_pieces, first_rows};

use adm_types::Exact;
use std::alloc::{AllocError, Global};
use std::cmp::Ordering;
use std::collections::BTreeMap;
use std::marker::Model;
use std::rc::Rc;

/// How many rows a piece may have.
const ROOM: usize = 64;

/// Some rows that follow one another, behind a counted pointer.
#[derive(Drop)]
pub struct Piece<K: Ord, V> {
    /// The key of its first row.
    pub first: K,
    /// Its rows, by their keys.
    pub rows: Rc<BTreeMap<K, V>>,
}

impl<K: Ord, V> Piece<K, V> {
    /// Its rows.
    pub fn rows(&self) -> &BTreeMap<K, V>
        ensures { result.now ≡ self.now.rows.value }
    {
        &*self.rows
    }
}

/// Rows in the order of their keys, in pieces. A change copies the pieces that it touches, and
/// shares the others.
#[derive(Drop)]
pub(crate) struct Pieces<K: Ord, V> {
    pieces: Vec<Piece<K, V>>,
    len: usize,
}

impl<K: Ord, V> Model for Pieces<K, V> {
    ghost use Rattle.std.specs.Prelude.{◌≡◌, List, length};
    ghost use Rattle.std.specs.Coded.{coded_list, coded×};
    ghost use Rattle.adm_table.specs.Pieces.{rows_of_pieces, ArePieces};

    ghost Value = { List (K × V) };

    ghost coded = { coded_list (coded× K.code V.code) };

    ghost view = { λ p. rows_of_pieces p.pieces.items };

    ghost invariant = { λ p. ArePieces K.cmp p.pieces.items × (p.len ≡ length (rows_of_pieces p.pieces.items)) };
}

impl<K: Ord, V> Pieces<K, V> {
    /// No rows. It takes no memory.
    pub(crate) fn new(alloc: Global) -> Self
        ensures { result ≡ [] }
    {
        Pieces {
            pieces: Vec::new(alloc),
            len: 0,
        }
    }

    /// The row of a key.
    pub(crate) fn get(&self, key: &K) -> Option<&V>
        ensures { option_copied result ≡ row_at K.cmp self.now key.now }
    {
        let index = index_of(&self.pieces, key);
        match self.pieces.get(index) {
            Some(piece) => piece.rows.get(key),
            None => None,
        }
    }

    /// Whether there is a row of the key.
    pub(crate) fn contains_key(&self, key: &K) -> bool
        ensures { result ≡ is_some (row_at K.cmp self.now key.now) }
    {
        self.get(key).is_some()
    }

    /// How many rows there are. They are in the order of their keys.
    pub(crate) fn len(&self) -> usize
        ensures value { result ≡ length self.now }
        ensures ordered { IsStrictlySortedBy K.cmp (keys_of self.now) }
    {
        self.len
    }

    /// The rows in their pieces.
    pub(crate) fn as_slice(&self) -> &[Piece<K, V>]
        ensures rows { rows_of_pieces result.now ≡ self.now }
        ensures ordered { IsStrictlySortedBy K.cmp (keys_of self.now) }
    {
        &self.pieces
    }
}

impl<K: Ord + Exact, V: Exact> Pieces<K, V> {
    /// The same rows again, whose pieces the two share.
    pub(crate) fn share(&self, alloc: Global) -> Result<Self, AllocError>
        ensures { IfOk result (λ shared. shared ≡ self.now) }
    {
        let mut pieces = Vec::with_capacity(alloc, self.pieces.len())?;
        for piece in &self.pieces {
            pieces.push(piece.share()?)?;
        }
        Ok(Pieces {
            pieces,
            len: self.len,
        })
    }

    /// The rows with this one at the key. A row that was there goes.
    pub(crate) fn put(self, alloc: Global, key: K, row: V) -> Result<Self, AllocError>
        ensures rows { IfOk result (λ rows. rows ≡ insert_entry K.cmp self key row) }
        ensures at { IfOk result (λ rows. (q : K) → row_at K.cmp rows q ≡ (if is_at (K.cmp key) q then Some row else row_at K.cmp self q)) }
        ensures ordered { IfOk result (λ rows. IsStrictlySortedBy K.cmp (keys_of rows)) }
    {
        let Pieces { mut pieces, len } = self;
        let index = index_of(&pieces, &key);
        let mut rows = take_rows(alloc, &mut pieces, index)?;
        let there = rows.insert(key, row)?;
        let len = match there {
            Some(_old) => len,
            None => len.checked_add(1).ok_or(AllocError)?,
        };
        put_rows(alloc, &mut pieces, index, rows)?;
        Ok(Pieces { pieces, len })
    }

    /// The rows without that of the key.
    pub(crate) fn cut(self, alloc: Global, key: &K) -> Result<Self, AllocError>
        ensures rows { IfOk result (λ rows. rows ≡ remove_entry (is_at (K.cmp key.now)) self) }
        ensures at { IfOk result (λ rows. (q : K) → row_at K.cmp rows q ≡ (if is_at (K.cmp key.now) q then None else row_at K.cmp self q)) }
    {
        let Pieces { mut pieces, len } = self;
        let index = index_of(&pieces, key);
        let mut rows = take_rows(alloc, &mut pieces, index)?;
        let len = match rows.remove(key) {
            Some(_old) => len - 1,
            None => len,
        };
        put_rows(alloc, &mut pieces, index, rows)?;
        Ok(Pieces { pieces, len })
    }
}

impl<K: Ord + Exact, V: Drop> Piece<K, V> {
    /// The same rows again, which the two pieces share.
    fn share(&self) -> Result<Self, AllocError>
        ensures { IfOk result (λ shared. (shared.first ≡ self.now.first) × (shared.rows.value ≡ self.now.rows.value)) }
    {
        Ok(Piece {
            first: self.first.clone()?,
            rows: self.rows.clone()?,
        })
    }
}

/// The index of the piece that a row of this key belongs to: the last one that starts at the key
/// or before it, or else the first one.
fn index_of<K: Ord, V>(pieces: &[Piece<K, V>], key: &K) -> usize
    requires { ArePieces K.cmp pieces.now }
    ensures room { result ≤ length pieces.now }
    ensures below { AllByRecursion (λ other. K.cmp other key.now ≡ Less) (keys_of (rows_of_pieces (take result pieces.now))) }
    ensures above { AllByRecursion (λ other. K.cmp key.now other ≡ Less) (keys_of (rows_of_pieces (drop (result + 1) pieces.now))) }
{
    let mut index = 0;
    let mut end = pieces.len();
    while end - index > 1 {
        let middle = index + (end - index) / 2;
        match pieces[middle].first.cmp(key) {
            Ordering::Greater => end = middle,
            Ordering::Less | Ordering::Equal => index = middle,
        }
    }
    index
}

/// Takes out the piece at an index, and gives its rows; none where there is no piece. They are
/// copied if another table has them too.
fn take_rows<K: Ord + Exact, V: Exact>(
    alloc: Global,
    pieces: &mut Vec<Piece<K, V>>,
    index: usize,
) -> Result<BTreeMap<K, V>, AllocError>
    requires { index ≤ vec_len pieces.old }
    ensures pieces { OnOk result (pieces.new.items ≡ take index pieces.old.items ++ drop (index + 1) pieces.old.items) }
    ensures rows { IfOk result (λ rows. rows.entries ≡ first_rows (drop index pieces.old.items)) }
{
    if index == pieces.len() {
        return Ok(BTreeMap::new(alloc));
    }
    let piece = pieces.remove(index);
    Rc::unwrap_or_clone(piece.rows)
}

/// Puts rows in at an index, in as many pieces as they need.
fn put_rows<K: Ord + Exact, V: Drop>(
    alloc: Global,
    pieces: &mut Vec<Piece<K, V>>,
    index: usize,
    rows: BTreeMap<K, V>,
) -> Result<(), AllocError>
    requires { index ≤ vec_len pieces.old }
    ensures before { OnOk result (take index pieces.new.items ≡ take index pieces.old.items) }
    ensures after { OnOk result (rows_of_pieces (drop index pieces.new.items) ≡ rows.entries ++ rows_of_pieces (drop index pieces.old.items)) }
    ensures starts { OnOk result (AllByRecursion StartsRight pieces.old.items → AllByRecursion StartsRight pieces.new.items) }
{
    let mut rows = rows;
    let upper = split(alloc, &mut rows)?;
    put_piece(alloc, pieces, index, upper)?;
    put_piece(alloc, pieces, index, rows)
}

/// Puts rows in at an index as one piece; none where there are no rows.
fn put_piece<K: Ord + Exact, V: Drop>(
    alloc: Global,
    pieces: &mut Vec<Piece<K, V>>,
    index: usize,
    rows: BTreeMap<K, V>,
) -> Result<(), AllocError>
    requires { index ≤ vec_len pieces.old }
    ensures room { OnOk result (index ≤ vec_len pieces.new) }
    ensures before { OnOk result (take index pieces.new.items ≡ take index pieces.old.items) }
    ensures after { OnOk result (rows_of_pieces (drop index pieces.new.items) ≡ rows.entries ++ rows_of_pieces (drop index pieces.old.items)) }
    ensures starts { OnOk result (AllByRecursion StartsRight pieces.old.items → AllByRecursion StartsRight pieces.new.items) }
{
    let first = match rows.first_key_value() {
        None => return Ok(()),
        Some((key, _)) => key.clone()?,
    };
    pieces.insert(
        index,
        Piece {
            first,
            rows: Rc::new(alloc, rows)?,
        },
    )?;
    Ok(())
}

/// Takes the upper half off where there are more rows than a piece may have.
fn split<K: Ord + Exact, V>(
    alloc: Global,
    rows: &mut BTreeMap<K, V>,
) -> Result<BTreeMap<K, V>, AllocError>
    ensures { IfOk result (λ upper. rows.old.entries ≡ rows.new.entries ++ upper.entries) }
{
    if rows.len() > ROOM {
        if let Some(key) = rows.keys().nth(ROOM / 2) {
            let middle = key.clone()?;
            return rows.split_off(&middle);
        }
    }
    Ok(BTreeMap::new(alloc))
}
