// The table `application`: its columns and keys, and the texts of SQL that make, write and read it.
ghost use Rattle.std.specs.Prelude.{◌≡◌};
ghost use Rattle.adm_schema.specs.Creations.{create_application};
ghost use Rattle.adm_schema.specs.Texts.{select_applications};
ghost use Rattle.adm_schema.specs.RowTexts.{put_application, insert_application, insert_applications, delete_application};

use crate::expected::{ExpectedKeys, ExpectedTable};
use sqlite_schema::schema::Kind;

pub(crate) const APPLICATION: ExpectedTable<'static> = ExpectedTable {
    name: "application",
    tree: 4,
    columns: &[
        ("child", Kind::Integer, false),
        ("day", Kind::Integer, true),
        ("preferences", Kind::Text, true),
    ],
    keys: ExpectedKeys::Rowid,
};

/// Makes the table.
pub fn create_application() -> &'static str
    ensures { result.now ≡ create_application }
{
    "CREATE TABLE application (child INTEGER PRIMARY KEY, day INTEGER NOT NULL, preferences TEXT NOT NULL) STRICT"
}

/// Writes a row over the one of its key, or adds it.
pub fn put_application() -> &'static str
    ensures { result.now ≡ put_application }
{
    "INSERT OR REPLACE INTO application (child, day, preferences) VALUES (?1, ?2, ?3)"
}

/// Adds a row.
pub fn insert_application() -> &'static str
    ensures { result.now ≡ insert_application }
{
    "INSERT INTO application (child, day, preferences) VALUES (?1, ?2, ?3)"
}

/// Adds eight rows.
pub fn insert_applications() -> &'static str
    ensures { result.now ≡ insert_applications }
{
    "INSERT INTO application (child, day, preferences) VALUES (?1, ?2, ?3), (?4, ?5, ?6), (?7, ?8, ?9), (?10, ?11, ?12), (?13, ?14, ?15), (?16, ?17, ?18), (?19, ?20, ?21), (?22, ?23, ?24)"
}

/// Deletes the row of a key.
pub fn delete_application() -> &'static str
    ensures { result.now ≡ delete_application }
{
    "DELETE FROM application WHERE child = ?1"
}

/// The rows, column by column.
pub fn select_applications() -> &'static str
    ensures { result.now ≡ select_applications }
{
    "SELECT child, day, preferences FROM application ORDER BY child"
}
