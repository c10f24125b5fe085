// The table `school`: its columns and keys, and the texts of SQL that make, write and read it.
ghost use Rattle.std.specs.Prelude.{◌≡◌};
ghost use Rattle.adm_schema.specs.Creations.{create_school};
ghost use Rattle.adm_schema.specs.Texts.{insert_school, select_schools};
ghost use Rattle.adm_schema.specs.RowTexts.{find_school, update_school, delete_school};

use crate::expected::{ExpectedKeys, ExpectedTable};
use sqlite_schema::schema::Kind;

pub(crate) const SCHOOL: ExpectedTable<'static> = ExpectedTable {
    name: "school",
    tree: 1,
    columns: &[
        ("code", Kind::Text, true),
        ("name", Kind::Text, true),
        ("pan", Kind::Integer, true),
        ("east", Kind::Integer, true),
        ("north", Kind::Integer, true),
        ("criteria", Kind::Text, true),
    ],
    keys: ExpectedKeys::Unique(&[1], &[&[1]]),
};

/// Makes the table.
pub fn create_school() -> &'static str
    ensures { result.now ≡ create_school }
{
    "CREATE TABLE school (code TEXT PRIMARY KEY NOT NULL, name TEXT NOT NULL, pan INTEGER NOT NULL, east INTEGER NOT NULL, north INTEGER NOT NULL, criteria TEXT NOT NULL) STRICT"
}

/// Adds a row.
pub fn insert_school() -> &'static str
    ensures { result.now ≡ insert_school }
{
    "INSERT INTO school (code, name, pan, east, north, criteria) VALUES (?1, ?2, ?3, ?4, ?5, ?6)"
}

/// The rowids of the rows of a key.
pub fn find_school() -> &'static str
    ensures { result.now ≡ find_school }
{
    "SELECT rowid FROM school WHERE code = ?1"
}

/// Writes all columns of the row of a rowid.
pub fn update_school() -> &'static str
    ensures { result.now ≡ update_school }
{
    "UPDATE school SET code = ?1, name = ?2, pan = ?3, east = ?4, north = ?5, criteria = ?6 WHERE rowid = ?7"
}

/// Deletes the row of a rowid.
pub fn delete_school() -> &'static str
    ensures { result.now ≡ delete_school }
{
    "DELETE FROM school WHERE rowid = ?1"
}

/// The rows, column by column.
pub fn select_schools() -> &'static str
    ensures { result.now ≡ select_schools }
{
    "SELECT code, name, pan, east, north, criteria FROM school ORDER BY code"
}
