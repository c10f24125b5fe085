// Whether a schema is the register's: its tables and indexes compared with those that are expected, one by one.
ghost use Rattle.std.specs.Prelude.{◌≡◌, ◌↔◌, [], ◌∷◌, Some, None, map, false, IsTrue, IfSome};
ghost use Rattle.sqlite.specs.declared.types.Value.TheVariants.{Null};
ghost use Rattle.adm_schema.specs.Columns.{column_of};
ghost use Rattle.adm_schema.specs.Schema.{schema_of};
ghost use Rattle.adm_schema.specs.Expected.{strict_columns, places_of, ascending, no_stamps, rowid_table, one_row_table, keyed_table, table_is, index_is};

use crate::Version;
use crate::expected::{ExpectedColumn, ExpectedIndex, ExpectedKeys, ExpectedTable};
use crate::one_test::is_one_test;
use crate::tables::{INDEXES, TABLES};
use sqlite_items::Items;
use sqlite_schema::code::Terms;
use sqlite_schema::schema::{Column, Index, Kind, Schema, Stamps, Table};
use sqlite_value::keys::{Collation, Order};
use sqlite_value::value::Value;

fn is_null(value: &Value) -> bool
    ensures { IsTrue result ↔ (value.now ≡ Null) }
{
    match value {
        Value::Null => true,
        _ => false,
    }
}

/// Whether the column is this one of a STRICT table, compared by its bytes and with no default.
fn is_column(column: &Column, expected: &ExpectedColumn<'_>) -> bool
    ensures { IsTrue result ↔ (column.now ≡ column_of expected.now.0.now expected.now.1 expected.now.2) }
{
    let (name, kind, not_null) = *expected;
    let named = column.name.as_slice() == name.as_bytes();
    let typed = column.kind == kind;
    let required = column.not_null == not_null;
    let binary = column.collation == Collation::Binary;
    named && typed && column.is_strict && required && is_null(&column.default) && binary
}

/// Whether the columns are these, in this order.
fn are_columns(columns: &[Column], expected: &[ExpectedColumn<'_>]) -> bool
    ensures { IsTrue result ↔ (columns.now ≡ strict_columns expected.now) }
{
    match (columns.split_first(), expected.split_first()) {
        (None, None) => true,
        (Some((column, columns)), Some((first, others))) => {
            is_column(column, first) && are_columns(columns, others)
        }
        _ => false,
    }
}

/// Whether the lists of places are these, in this order.
fn are_places(lists: &[Items<usize>], expected: &[&[usize]]) -> bool
    ensures { IsTrue result ↔ (lists.now ≡ places_of expected.now) }
{
    match (lists.split_first(), expected.split_first()) {
        (None, None) => true,
        (Some((list, lists)), Some((first, others))) => {
            list.as_slice() == *first && are_places(lists, others)
        }
        _ => false,
    }
}

/// Whether there is one order for each of the lists, and all of them ascend.
fn are_ascending(orders: &[Order], expected: &[&[usize]]) -> bool
    ensures { IsTrue result ↔ (orders.now ≡ ascending expected.now) }
{
    match (orders.split_first(), expected.split_first()) {
        (None, None) => true,
        (Some((order, orders)), Some((_, others))) => {
            order.digits == 0 && are_ascending(orders, others)
        }
        _ => false,
    }
}

/// Whether there is nothing that a text of ours does not write: no CHECK, no reference, no computed default.
fn is_bare(table: &Table) -> bool
    ensures { IsTrue result ↔ ((table.now.references ≡ []) × (table.now.computed ≡ []) × (table.now.stamps ≡ no_stamps) × (table.now.is_counted ≡ false)) }
{
    table.references.is_empty()
        && table.computed.is_empty()
        && is_timeless(&table.stamps)
        && !table.is_counted
}

/// Whether no default reads the time.
fn is_timeless(stamps: &Stamps) -> bool
    ensures { IsTrue result ↔ (stamps.now ≡ no_stamps) }
{
    stamps.places.is_empty() && has_no_terms(&stamps.terms) && stamps.formats.is_empty()
}

fn has_no_terms(terms: &Terms) -> bool
    ensures { IsTrue result ↔ (terms.now ≡ []) }
{
    terms.roots.is_empty()
}

/// Whether the table has this name, tree and columns.
fn is_named(table: &Table, name: &str, tree: u32, columns: &[ExpectedColumn<'_>]) -> bool
    ensures { IsTrue result ↔ ((table.now.name ≡ name.now) × (table.now.tree ≡ tree) × (table.now.columns ≡ strict_columns columns.now)) }
{
    let named = table.name.as_slice() == name.as_bytes();
    named && table.tree == tree && are_columns(table.columns.as_slice(), columns)
}

/// Whether the keys of a table are the rowid alone, which is its first column.
fn has_rowid(table: &Table) -> bool
    ensures { IsTrue result ↔ ((table.now.key ≡ Some 0) × (table.now.primary ≡ 0 ∷ []) × (table.now.uniques ≡ []) × (table.now.orders ≡ [])) }
{
    let first = table.primary.as_slice() == [0].as_slice();
    table.key == Some(0) && first && table.uniques.is_empty() && table.orders.is_empty()
}

/// Whether these are the table's unique keys, and this its primary key.
fn has_keys(table: &Table, primary: &[usize], uniques: &[&[usize]]) -> bool
    ensures { IsTrue result ↔ ((table.now.key ≡ None) × (table.now.primary ≡ primary.now) × (table.now.uniques ≡ places_of uniques.now) × (table.now.orders ≡ ascending uniques.now)) }
{
    let first = table.primary.as_slice() == primary;
    table.key.is_none()
        && first
        && are_places(table.uniques.as_slice(), uniques)
        && are_ascending(table.orders.as_slice(), uniques)
}

/// Whether it is a table of this name, tree and columns whose first column is its rowid.
fn is_rowid_table(table: &Table, name: &str, tree: u32, columns: &[ExpectedColumn<'_>]) -> bool
    ensures { IsTrue result ↔ (table.now ≡ rowid_table name.now tree (strict_columns columns.now)) }
{
    is_named(table, name, tree, columns)
        && has_rowid(table)
        && has_no_terms(&table.checks)
        && is_bare(table)
}

/// Whether it is such a table whose CHECK is that the first column is 1.
fn is_one_row_table(table: &Table, name: &str, tree: u32, columns: &[ExpectedColumn<'_>]) -> bool
    ensures { IsTrue result ↔ (table.now ≡ one_row_table name.now tree (strict_columns columns.now)) }
{
    is_named(table, name, tree, columns)
        && has_rowid(table)
        && is_one_test(&table.checks)
        && is_bare(table)
}

/// Whether it is a table of this name, tree and columns with these unique keys and this primary key.
fn is_keyed_table(
    table: &Table,
    name: &str,
    tree: u32,
    columns: &[ExpectedColumn<'_>],
    primary: &[usize],
    uniques: &[&[usize]],
) -> bool
    ensures { IsTrue result ↔ (table.now ≡ keyed_table name.now tree (strict_columns columns.now) primary.now (places_of uniques.now) (ascending uniques.now)) }
{
    is_named(table, name, tree, columns)
        && has_keys(table, primary, uniques)
        && has_no_terms(&table.checks)
        && is_bare(table)
}

/// Whether it is this table.
fn is_table(table: &Table, expected: &ExpectedTable<'_>) -> bool
    ensures { IsTrue result ↔ (table.now ≡ table_is expected.now) }
{
    let ExpectedTable {
        name,
        tree,
        columns,
        keys,
    } = expected;
    match keys {
        ExpectedKeys::Rowid => is_rowid_table(table, name, *tree, columns),
        ExpectedKeys::One => is_one_row_table(table, name, *tree, columns),
        ExpectedKeys::Unique(primary, uniques) => {
            is_keyed_table(table, name, *tree, columns, primary, uniques)
        }
    }
}

/// Whether the tables are these, in this order.
fn are_tables(tables: &[Table], expected: &[ExpectedTable<'_>]) -> bool
    ensures { IsTrue result ↔ (tables.now ≡ map table_is expected.now) }
{
    match (tables.split_first(), expected.split_first()) {
        (None, None) => true,
        (Some((table, tables)), Some((first, others))) => {
            is_table(table, first) && are_tables(tables, others)
        }
        _ => false,
    }
}

/// Whether it is this index of a unique key of a table.
fn is_index(index: &Index, expected: &ExpectedIndex<'_>) -> bool
    ensures { IsTrue result ↔ (index.now ≡ index_is expected.now) }
{
    let ExpectedIndex {
        name,
        tree,
        table,
        columns,
    } = *expected;
    let named = index.name.as_slice() == name.as_bytes();
    let over = index.columns.as_slice() == columns;
    named
        && index.tree == tree
        && index.table == table
        && over
        && index.order.digits == 0
        && index.is_unique
}

/// Whether the indexes are these, in this order.
fn are_indexes(indexes: &[Index], expected: &[ExpectedIndex<'_>]) -> bool
    ensures { IsTrue result ↔ (indexes.now ≡ map index_is expected.now) }
{
    match (indexes.split_first(), expected.split_first()) {
        (None, None) => true,
        (Some((index, indexes)), Some((first, others))) => {
            is_index(index, first) && are_indexes(indexes, others)
        }
        _ => false,
    }
}

/// Whether the schema has just these tables and indexes, in this order, and no view.
fn is_schema(schema: &Schema, tables: &[ExpectedTable<'_>], indexes: &[ExpectedIndex<'_>]) -> bool
    ensures { IsTrue result ↔ (schema.now ≡ record { tables = map table_is tables.now; indexes = map index_is indexes.now; views = [] }) }
{
    are_tables(schema.tables.as_slice(), tables)
        && are_indexes(schema.indexes.as_slice(), indexes)
        && schema.views.is_empty()
}

/// The version of which this is the schema: its tables as their texts make them, the indexes of their keys, and no
/// other table, index or view. It takes no memory, and what it costs does not grow.
pub fn version_of(schema: &Schema) -> Option<Version>
    ensures some { IfSome result (λ v. schema.now ≡ schema_of v) }
    ensures none { result ≡ None → (v : Version) → schema.now ≡ schema_of v → ⊥ }
{
    let (first_tables, _) = TABLES.split_at(10);
    let (first_indexes, _) = INDEXES.split_at(5);
    if is_schema(schema, TABLES, INDEXES) {
        Some(Version::Second)
    } else if is_schema(schema, first_tables, first_indexes) {
        Some(Version::First)
    } else {
        None
    }
}
