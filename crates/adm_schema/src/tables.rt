// The register's tables and the indexes of their keys, in the order in which they are made.
pub mod applications;
pub mod children;
pub mod draws;
pub mod left_list;
pub mod meta;
pub mod places;
pub mod present;
pub mod schools;

use crate::expected::{ExpectedIndex, ExpectedTable};
use crate::tables::applications::APPLICATION;
use crate::tables::children::{CHILD, IMPORTED};
use crate::tables::draws::{DRAW, LOT, OFFER};
use crate::tables::left_list::LEFT_LIST;
use crate::tables::meta::META;
use crate::tables::places::PLACE;
use crate::tables::present::PRESENT;
use crate::tables::schools::SCHOOL;

pub(crate) const TABLES: &[ExpectedTable<'static>] = &[
    META,
    SCHOOL,
    CHILD,
    APPLICATION,
    PLACE,
    LEFT_LIST,
    DRAW,
    OFFER,
    LOT,
    IMPORTED,
    PRESENT,
];

pub(crate) const INDEXES: &[ExpectedIndex<'static>] = &[
    ExpectedIndex {
        name: "sqlite_autoindex_school_1",
        tree: 2,
        table: 1,
        columns: &[1],
    },
    ExpectedIndex {
        name: "sqlite_autoindex_left_list_1",
        tree: 7,
        table: 6,
        columns: &[1, 2],
    },
    ExpectedIndex {
        name: "sqlite_autoindex_offer_1",
        tree: 10,
        table: 9,
        columns: &[1, 2],
    },
    ExpectedIndex {
        name: "sqlite_autoindex_lot_1",
        tree: 12,
        table: 11,
        columns: &[1, 2, 3],
    },
    ExpectedIndex {
        name: "sqlite_autoindex_lot_2",
        tree: 13,
        table: 11,
        columns: &[1, 2, 4],
    },
    ExpectedIndex {
        name: "sqlite_autoindex_present_1",
        tree: 16,
        table: 15,
        columns: &[1, 2],
    },
];
