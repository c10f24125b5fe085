// The problems of three entrants and two schools with quotas 0 to 2, tenants included, by their number.
use crate::tables::{ABSENT, Row, Table};

/// How many problems there are of one choice of the first entrant: 9 choices of list and tenancy for
/// each of two others, 3 quotas and 6 rankings at each of two schools.
pub const BLOCK: u32 = 26_244;

/// How many choices of list and tenancy an entrant has.
pub const CHOICES: u32 = 9;

/// The list of each choice.
const LISTS: [[u32; 4]; 9] = [
    [0, 0, 0, 0],
    [1, 0, 0, 0],
    [2, 0, 0, 0],
    [1, 2, 0, 0],
    [2, 1, 0, 0],
    [1, 0, 0, 0],
    [2, 0, 0, 0],
    [1, 2, 0, 0],
    [2, 1, 0, 0],
];

/// The school of which the entrant of each choice is a tenant: the last of its list, or none.
const TENANCIES: [u32; 9] = [0, 0, 0, 0, 0, 1, 2, 2, 1];

/// The place of each of three entrants in each of their six rankings.
const RANKINGS: [[u32; 3]; 6] = [
    [0, 1, 2],
    [0, 2, 1],
    [1, 0, 2],
    [1, 2, 0],
    [2, 0, 1],
    [2, 1, 0],
];

/// The place of an entrant in a ranking.
fn rank(ranking: u32, index: usize) -> u32 {
    let row = RANKINGS[(ranking % 6) as usize];
    row[index % 3]
}

fn row_of(choice: u32, rankings: [u32; 2], index: usize) -> Row {
    let [first, second] = rankings;
    Row {
        takes_part: true,
        list: LISTS[(choice % 9) as usize],
        tenant: TENANCIES[(choice % 9) as usize],
        ranks: [rank(first, index), rank(second, index), 0, 0],
    }
}

/// The table of a number below 9 blocks.
pub fn table_of(number: u32) -> Table {
    let choices = [number / 26_244 % 9, number / 2_916 % 9, number / 324 % 9];
    let rankings = [number / 6 % 6, number % 6];
    let mut rows = [ABSENT; 5];
    for index in 0..3 {
        rows[index] = row_of(choices[index], rankings, index);
    }
    Table {
        rows,
        quotas: [number / 108 % 3, number / 36 % 3, 0, 0],
    }
}
