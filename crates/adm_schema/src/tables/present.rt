// The table `present`: its columns and keys, and the texts of SQL that make, write and read it.
ghost use Rattle.std.specs.Prelude.{◌≡◌};
ghost use Rattle.adm_schema.specs.Creations.{create_present};
ghost use Rattle.adm_schema.specs.Texts.{select_present};
ghost use Rattle.adm_schema.specs.RowTexts.{insert_present, find_present, delete_present};

use crate::expected::{ExpectedKeys, ExpectedTable};
use sqlite_schema::schema::Kind;

pub(crate) const PRESENT: ExpectedTable<'static> = ExpectedTable {
    name: "present",
    tree: 15,
    columns: &[
        ("child", Kind::Integer, true),
        ("imported", Kind::Integer, true),
        ("school", Kind::Text, true),
    ],
    keys: ExpectedKeys::Unique(&[1, 2], &[&[1, 2]]),
};

/// Makes the table.
pub fn create_present() -> &'static str
    ensures { result.now ≡ create_present }
{
    "CREATE TABLE present (child INTEGER NOT NULL, imported INTEGER NOT NULL, school TEXT NOT NULL, PRIMARY KEY (child, imported)) STRICT"
}

/// Adds a row.
pub fn insert_present() -> &'static str
    ensures { result.now ≡ insert_present }
{
    "INSERT INTO present (child, imported, school) VALUES (?1, ?2, ?3)"
}

/// The rowids of the rows of a key.
pub fn find_present() -> &'static str
    ensures { result.now ≡ find_present }
{
    "SELECT rowid FROM present WHERE child = ?1 AND imported = ?2"
}

/// Deletes the row of a rowid.
pub fn delete_present() -> &'static str
    ensures { result.now ≡ delete_present }
{
    "DELETE FROM present WHERE rowid = ?1"
}

/// The rows, column by column.
pub fn select_present() -> &'static str
    ensures { result.now ≡ select_present }
{
    "SELECT child, imported, school FROM present"
}
