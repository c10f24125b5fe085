// The tables `child` and `imported`: their columns and keys, and the texts of SQL that make, write and read them.
ghost use Rattle.std.specs.Prelude.{◌≡◌};
ghost use Rattle.adm_schema.specs.Creations.{create_child, create_imported};
ghost use Rattle.adm_schema.specs.Texts.{select_children, insert_imported, insert_imported_rows, select_imported};
ghost use Rattle.adm_schema.specs.RowTexts.{put_child, insert_child, insert_children};

use crate::expected::{ExpectedKeys, ExpectedTable};
use sqlite_schema::schema::Kind;

pub(crate) const CHILD: ExpectedTable<'static> = ExpectedTable {
    name: "child",
    tree: 3,
    columns: &[
        ("child", Kind::Integer, false),
        ("name", Kind::Text, true),
        ("east", Kind::Integer, true),
        ("north", Kind::Integer, true),
        ("looked_after", Kind::Integer, true),
        ("flags", Kind::Integer, true),
        ("siblings", Kind::Text, true),
    ],
    keys: ExpectedKeys::Rowid,
};

pub(crate) const IMPORTED: ExpectedTable<'static> = ExpectedTable {
    name: "imported",
    tree: 14,
    columns: &[
        ("child", Kind::Integer, false),
        ("name", Kind::Text, true),
        ("east", Kind::Integer, true),
        ("north", Kind::Integer, true),
        ("looked_after", Kind::Integer, true),
        ("flags", Kind::Integer, true),
        ("siblings", Kind::Text, true),
        ("day", Kind::Integer, true),
        ("preferences", Kind::Text, true),
    ],
    keys: ExpectedKeys::Rowid,
};

/// Makes the table `child`.
pub fn create_child() -> &'static str
    ensures { result.now ≡ create_child }
{
    "CREATE TABLE child (child INTEGER PRIMARY KEY, name TEXT NOT NULL, east INTEGER NOT NULL, north INTEGER NOT NULL, looked_after INTEGER NOT NULL, flags INTEGER NOT NULL, siblings TEXT NOT NULL) STRICT"
}

/// Writes a row of `child` over the one of its key, or adds it.
pub fn put_child() -> &'static str
    ensures { result.now ≡ put_child }
{
    "INSERT OR REPLACE INTO child (child, name, east, north, looked_after, flags, siblings) VALUES (?1, ?2, ?3, ?4, ?5, ?6, ?7)"
}

/// Adds a row to `child`.
pub fn insert_child() -> &'static str
    ensures { result.now ≡ insert_child }
{
    "INSERT INTO child (child, name, east, north, looked_after, flags, siblings) VALUES (?1, ?2, ?3, ?4, ?5, ?6, ?7)"
}

/// Adds eight rows to `child`.
pub fn insert_children() -> &'static str
    ensures { result.now ≡ insert_children }
{
    "INSERT INTO child (child, name, east, north, looked_after, flags, siblings) VALUES (?1, ?2, ?3, ?4, ?5, ?6, ?7), (?8, ?9, ?10, ?11, ?12, ?13, ?14), (?15, ?16, ?17, ?18, ?19, ?20, ?21), (?22, ?23, ?24, ?25, ?26, ?27, ?28), (?29, ?30, ?31, ?32, ?33, ?34, ?35), (?36, ?37, ?38, ?39, ?40, ?41, ?42), (?43, ?44, ?45, ?46, ?47, ?48, ?49), (?50, ?51, ?52, ?53, ?54, ?55, ?56)"
}

/// The rows of `child`, column by column.
pub fn select_children() -> &'static str
    ensures { result.now ≡ select_children }
{
    "SELECT child, name, east, north, looked_after, flags, siblings FROM child ORDER BY child"
}

/// Makes the table `imported`.
pub fn create_imported() -> &'static str
    ensures { result.now ≡ create_imported }
{
    "CREATE TABLE imported (child INTEGER PRIMARY KEY, name TEXT NOT NULL, east INTEGER NOT NULL, north INTEGER NOT NULL, looked_after INTEGER NOT NULL, flags INTEGER NOT NULL, siblings TEXT NOT NULL, day INTEGER NOT NULL, preferences TEXT NOT NULL) STRICT"
}

/// Adds a row to `imported`.
pub fn insert_imported() -> &'static str
    ensures { result.now ≡ insert_imported }
{
    "INSERT INTO imported (child, name, east, north, looked_after, flags, siblings, day, preferences) VALUES (?1, ?2, ?3, ?4, ?5, ?6, ?7, ?8, ?9)"
}

/// Adds eight rows to `imported`.
pub fn insert_imported_rows() -> &'static str
    ensures { result.now ≡ insert_imported_rows }
{
    "INSERT INTO imported (child, name, east, north, looked_after, flags, siblings, day, preferences) VALUES (?1, ?2, ?3, ?4, ?5, ?6, ?7, ?8, ?9), (?10, ?11, ?12, ?13, ?14, ?15, ?16, ?17, ?18), (?19, ?20, ?21, ?22, ?23, ?24, ?25, ?26, ?27), (?28, ?29, ?30, ?31, ?32, ?33, ?34, ?35, ?36), (?37, ?38, ?39, ?40, ?41, ?42, ?43, ?44, ?45), (?46, ?47, ?48, ?49, ?50, ?51, ?52, ?53, ?54), (?55, ?56, ?57, ?58, ?59, ?60, ?61, ?62, ?63), (?64, ?65, ?66, ?67, ?68, ?69, ?70, ?71, ?72)"
}

/// The rows of `imported`, column by column.
pub fn select_imported() -> &'static str
    ensures { result.now ≡ select_imported }
{
    "SELECT child, name, east, north, looked_after, flags, siblings, day, preferences FROM imported"
}
