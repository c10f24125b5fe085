// The table `meta`: its columns and keys, and the texts of SQL that make, write and read it.
ghost use Rattle.std.specs.Prelude.{◌≡◌};
ghost use Rattle.adm_schema.specs.Creations.{create_meta};
ghost use Rattle.adm_schema.specs.Texts.{insert_meta, update_meta, mark_version, select_meta};

use crate::expected::{ExpectedKeys, ExpectedTable};
use sqlite_schema::schema::Kind;

pub(crate) const META: ExpectedTable<'static> = ExpectedTable {
    name: "meta",
    tree: 0,
    columns: &[
        ("one", Kind::Integer, false),
        ("version", Kind::Integer, true),
        ("phase", Kind::Integer, true),
        ("year", Kind::Integer, true),
        ("holidays", Kind::Text, true),
        ("draws", Kind::Integer, true),
    ],
    keys: ExpectedKeys::One,
};

/// Makes the table.
pub fn create_meta() -> &'static str
    ensures { result.now ≡ create_meta }
{
    "CREATE TABLE meta (one INTEGER PRIMARY KEY CHECK (one = 1), version INTEGER NOT NULL, phase INTEGER NOT NULL, year INTEGER NOT NULL, holidays TEXT NOT NULL, draws INTEGER NOT NULL) STRICT"
}

/// Adds a row.
pub fn insert_meta() -> &'static str
    ensures { result.now ≡ insert_meta }
{
    "INSERT INTO meta (one, version, phase, year, holidays, draws) VALUES (1, ?1, ?2, ?3, ?4, 0)"
}

/// Sets the count of draws.
pub fn update_meta() -> &'static str
    ensures { result.now ≡ update_meta }
{
    "UPDATE meta SET draws = ?1"
}

/// Sets the second version.
pub fn mark_version() -> &'static str
    ensures { result.now ≡ mark_version }
{
    "UPDATE meta SET version = 2"
}

/// The rows, column by column.
pub fn select_meta() -> &'static str
    ensures { result.now ≡ select_meta }
{
    "SELECT one, version, phase, year, holidays, draws FROM meta"
}
