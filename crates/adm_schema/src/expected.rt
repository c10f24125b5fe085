// A table, and the index of a unique key, as they are expected in a file.
use sqlite_schema::schema::Kind;

/// A column's name, its type, and whether it is NOT NULL.
pub(crate) type ExpectedColumn<'a> = (&'a str, Kind, bool);

/// The keys of a table, as the places of their columns, which count from 0 at the rowid.
pub(crate) enum ExpectedKeys<'a> {
    /// The rowid alone, which is the first column.
    Rowid,
    /// The same, and a CHECK that it is 1.
    One,
    /// The primary key, and each of the unique keys.
    Unique(&'a [usize], &'a [&'a [usize]]),
}

/// A STRICT table without references, defaults and computed columns.
pub(crate) struct ExpectedTable<'a> {
    pub(crate) name: &'a str,
    /// The number of its tree in the file.
    pub(crate) tree: u32,
    pub(crate) columns: &'a [ExpectedColumn<'a>],
    pub(crate) keys: ExpectedKeys<'a>,
}

/// The index of a unique key.
pub(crate) struct ExpectedIndex<'a> {
    pub(crate) name: &'a str,
    /// The number of its tree in the file.
    pub(crate) tree: u32,
    /// The number of the table's tree.
    pub(crate) table: u32,
    pub(crate) columns: &'a [usize],
}
