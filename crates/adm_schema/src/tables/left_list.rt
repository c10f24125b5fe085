// The table `left_list`: its columns and keys, and the texts of SQL that make, write and read it.
ghost use Rattle.std.specs.Prelude.{◌≡◌};
ghost use Rattle.adm_schema.specs.Creations.{create_left_list};
ghost use Rattle.adm_schema.specs.Texts.{insert_left_list, select_left_list};

use crate::expected::{ExpectedKeys, ExpectedTable};
use sqlite_schema::schema::Kind;

pub(crate) const LEFT_LIST: ExpectedTable<'static> = ExpectedTable {
    name: "left_list",
    tree: 6,
    columns: &[("child", Kind::Integer, true), ("school", Kind::Text, true)],
    keys: ExpectedKeys::Unique(&[1, 2], &[&[1, 2]]),
};

/// Makes the table.
pub fn create_left_list() -> &'static str
    ensures { result.now ≡ create_left_list }
{
    "CREATE TABLE left_list (child INTEGER NOT NULL, school TEXT NOT NULL, PRIMARY KEY (child, school)) STRICT"
}

/// Adds a row.
pub fn insert_left_list() -> &'static str
    ensures { result.now ≡ insert_left_list }
{
    "INSERT INTO left_list (child, school) VALUES (?1, ?2)"
}

/// The rows, column by column.
pub fn select_left_list() -> &'static str
    ensures { result.now ≡ select_left_list }
{
    "SELECT child, school FROM left_list"
}
