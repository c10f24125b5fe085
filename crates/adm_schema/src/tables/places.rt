// The table `place`: its columns and keys, and the texts of SQL that make, write and read it.
ghost use Rattle.std.specs.Prelude.{◌≡◌};
ghost use Rattle.adm_schema.specs.Creations.{create_place};
ghost use Rattle.adm_schema.specs.Texts.{select_places};
ghost use Rattle.adm_schema.specs.RowTexts.{put_place, insert_places, delete_place};

use crate::expected::{ExpectedKeys, ExpectedTable};
use sqlite_schema::schema::Kind;

pub(crate) const PLACE: ExpectedTable<'static> = ExpectedTable {
    name: "place",
    tree: 5,
    columns: &[
        ("child", Kind::Integer, false),
        ("school", Kind::Text, true),
        ("kind", Kind::Integer, true),
        ("day", Kind::Integer, false),
        ("reminded", Kind::Integer, false),
    ],
    keys: ExpectedKeys::Rowid,
};

/// Makes the table.
pub fn create_place() -> &'static str
    ensures { result.now ≡ create_place }
{
    "CREATE TABLE place (child INTEGER PRIMARY KEY, school TEXT NOT NULL, kind INTEGER NOT NULL, day INTEGER, reminded INTEGER) STRICT"
}

/// Writes a row over the one of its key, or adds it.
pub fn put_place() -> &'static str
    ensures { result.now ≡ put_place }
{
    "INSERT OR REPLACE INTO place (child, school, kind, day, reminded) VALUES (?1, ?2, ?3, ?4, ?5)"
}

/// Adds eight rows.
pub fn insert_places() -> &'static str
    ensures { result.now ≡ insert_places }
{
    "INSERT INTO place (child, school, kind, day, reminded) VALUES (?1, ?2, ?3, ?4, ?5), (?6, ?7, ?8, ?9, ?10), (?11, ?12, ?13, ?14, ?15), (?16, ?17, ?18, ?19, ?20), (?21, ?22, ?23, ?24, ?25), (?26, ?27, ?28, ?29, ?30), (?31, ?32, ?33, ?34, ?35), (?36, ?37, ?38, ?39, ?40)"
}

/// Deletes the row of a key.
pub fn delete_place() -> &'static str
    ensures { result.now ≡ delete_place }
{
    "DELETE FROM place WHERE child = ?1"
}

/// The rows, column by column.
pub fn select_places() -> &'static str
    ensures { result.now ≡ select_places }
{
    "SELECT child, school, kind, day, reminded FROM place ORDER BY child"
}
