// The tables `draw`, `offer` and `lot`: their columns and keys, and the texts of SQL that make, write and read them.
ghost use Rattle.std.specs.Prelude.{◌≡◌};
ghost use Rattle.adm_schema.specs.Creations.{create_draw, create_offer, create_lot};
ghost use Rattle.adm_schema.specs.Texts.{insert_draw, select_draws, select_offers, select_lots};
ghost use Rattle.adm_schema.specs.RowTexts.{insert_offer, insert_offers, insert_lot, insert_lots};

use crate::expected::{ExpectedKeys, ExpectedTable};
use sqlite_schema::schema::Kind;

pub(crate) const DRAW: ExpectedTable<'static> = ExpectedTable {
    name: "draw",
    tree: 8,
    columns: &[
        ("draw", Kind::Integer, false),
        ("round", Kind::Integer, true),
        ("school", Kind::Text, false),
        ("day", Kind::Integer, true),
    ],
    keys: ExpectedKeys::Rowid,
};

pub(crate) const OFFER: ExpectedTable<'static> = ExpectedTable {
    name: "offer",
    tree: 9,
    columns: &[
        ("draw", Kind::Integer, true),
        ("child", Kind::Integer, true),
        ("school", Kind::Text, false),
        ("fresh", Kind::Integer, true),
    ],
    keys: ExpectedKeys::Unique(&[1, 2], &[&[1, 2]]),
};

pub(crate) const LOT: ExpectedTable<'static> = ExpectedTable {
    name: "lot",
    tree: 11,
    columns: &[
        ("draw", Kind::Integer, true),
        ("school", Kind::Text, true),
        ("child", Kind::Integer, true),
        ("lot", Kind::Integer, true),
    ],
    keys: ExpectedKeys::Unique(&[1, 2, 3], &[&[1, 2, 3], &[1, 2, 4]]),
};

/// Makes the table `draw`.
pub fn create_draw() -> &'static str
    ensures { result.now ≡ create_draw }
{
    "CREATE TABLE draw (draw INTEGER PRIMARY KEY, round INTEGER NOT NULL, school TEXT, day INTEGER NOT NULL) STRICT"
}

/// Adds a row to `draw`.
pub fn insert_draw() -> &'static str
    ensures { result.now ≡ insert_draw }
{
    "INSERT INTO draw (draw, round, school, day) VALUES (?1, ?2, ?3, ?4)"
}

/// The rows of `draw`, column by column.
pub fn select_draws() -> &'static str
    ensures { result.now ≡ select_draws }
{
    "SELECT draw, round, school, day FROM draw"
}

/// Makes the table `offer`.
pub fn create_offer() -> &'static str
    ensures { result.now ≡ create_offer }
{
    "CREATE TABLE offer (draw INTEGER NOT NULL, child INTEGER NOT NULL, school TEXT, fresh INTEGER NOT NULL, PRIMARY KEY (draw, child)) STRICT"
}

/// Adds a row to `offer`.
pub fn insert_offer() -> &'static str
    ensures { result.now ≡ insert_offer }
{
    "INSERT INTO offer (draw, child, school, fresh) VALUES (?1, ?2, ?3, ?4)"
}

/// Adds eight rows to `offer`.
pub fn insert_offers() -> &'static str
    ensures { result.now ≡ insert_offers }
{
    "INSERT INTO offer (draw, child, school, fresh) VALUES (?1, ?2, ?3, ?4), (?5, ?6, ?7, ?8), (?9, ?10, ?11, ?12), (?13, ?14, ?15, ?16), (?17, ?18, ?19, ?20), (?21, ?22, ?23, ?24), (?25, ?26, ?27, ?28), (?29, ?30, ?31, ?32)"
}

/// The rows of `offer`, column by column.
pub fn select_offers() -> &'static str
    ensures { result.now ≡ select_offers }
{
    "SELECT draw, child, school, fresh FROM offer"
}

/// Makes the table `lot`.
pub fn create_lot() -> &'static str
    ensures { result.now ≡ create_lot }
{
    "CREATE TABLE lot (draw INTEGER NOT NULL, school TEXT NOT NULL, child INTEGER NOT NULL, lot INTEGER NOT NULL, PRIMARY KEY (draw, school, child), UNIQUE (draw, school, lot)) STRICT"
}

/// Adds a row to `lot`.
pub fn insert_lot() -> &'static str
    ensures { result.now ≡ insert_lot }
{
    "INSERT INTO lot (draw, school, child, lot) VALUES (?1, ?2, ?3, ?4)"
}

/// Adds eight rows to `lot`.
pub fn insert_lots() -> &'static str
    ensures { result.now ≡ insert_lots }
{
    "INSERT INTO lot (draw, school, child, lot) VALUES (?1, ?2, ?3, ?4), (?5, ?6, ?7, ?8), (?9, ?10, ?11, ?12), (?13, ?14, ?15, ?16), (?17, ?18, ?19, ?20), (?21, ?22, ?23, ?24), (?25, ?26, ?27, ?28), (?29, ?30, ?31, ?32)"
}

/// The rows of `lot`, column by column.
pub fn select_lots() -> &'static str
    ensures { result.now ≡ select_lots }
{
    "SELECT draw, school, child, lot FROM lot"
}
