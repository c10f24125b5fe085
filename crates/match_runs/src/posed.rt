// Tables posed to the program as problems, and what it offers as a row of numbers.
use crate::tables::{Given, List, Row, Table, at};
use adm_match::{BadProblem, Entrant, Offers, Problem, Seats, Wish};
use adm_rank::RankKey;
use adm_types::{ChildNo, SchoolCode};
use std::alloc::{AllocError, Global};

/// The codes of the schools and the numbers of the children.
#[derive(Clone, Copy)]
pub struct Names {
    pub codes: [SchoolCode; 4],
    pub children: [ChildNo; 5],
}

pub fn make_names() -> Option<Names> {
    Some(Names {
        codes: [
            SchoolCode::new("A")?,
            SchoolCode::new("B")?,
            SchoolCode::new("C")?,
            SchoolCode::new("D")?,
        ],
        children: [
            ChildNo::new(1)?,
            ChildNo::new(2)?,
            ChildNo::new(3)?,
            ChildNo::new(4)?,
            ChildNo::new(5)?,
        ],
    })
}

/// The school of a number, or none.
fn code_of(names: &Names, school: u32) -> Option<SchoolCode> {
    if school == 0 {
        None
    } else {
        Some(names.codes[at(school)])
    }
}

/// The number of a school; 0 is none.
pub fn number_of(names: &Names, school: Option<SchoolCode>) -> u32 {
    match school {
        None => 0,
        Some(code) if code == names.codes[0] => 1,
        Some(code) if code == names.codes[1] => 2,
        Some(code) if code == names.codes[2] => 3,
        Some(_) => 4,
    }
}

/// The key of a rank below 64: the first school ranks by class alone, the second by distance, the others
/// by lot.
fn key_at(school: u32, rank: u32) -> RankKey {
    match school {
        1 => RankKey {
            class: (rank % 64) as u8,
            distance: 5,
            lot: 5,
        },
        2 => RankKey {
            class: 1,
            distance: rank,
            lot: 9,
        },
        _ => RankKey {
            class: 1,
            distance: 7,
            lot: rank,
        },
    }
}

/// The wishes of a list, with a row's rank at each school.
fn wishes_of(
    alloc: Global,
    names: &Names,
    list: List,
    ranks: [u32; 4],
) -> Result<Vec<Wish>, AllocError> {
    let mut wishes = Vec::new(alloc);
    for school in list {
        if school != 0 {
            wishes.push(Wish {
                school: names.codes[at(school)],
                key: key_at(school, ranks[at(school)]),
            })?;
        }
    }
    Ok(wishes)
}

fn entrant_of(
    alloc: Global,
    names: &Names,
    row: &Row,
    child: ChildNo,
) -> Result<Entrant, AllocError> {
    Ok(Entrant {
        child,
        list: wishes_of(alloc, names, row.list, row.ranks)?,
        tenant: code_of(names, row.tenant),
    })
}

fn entrants_of(alloc: Global, names: &Names, table: &Table) -> Result<Vec<Entrant>, AllocError> {
    let mut entrants = Vec::new(alloc);
    for index in 0..5 {
        if table.rows[index].takes_part {
            let child = names.children[index];
            entrants.push(entrant_of(alloc, names, &table.rows[index], child)?)?;
        }
    }
    Ok(entrants)
}

fn seats_of(alloc: Global, names: &Names, table: &Table) -> Result<Vec<Seats>, AllocError> {
    let mut seats = Vec::new(alloc);
    for index in 0..4 {
        seats.push(Seats {
            code: names.codes[index],
            quota: table.quotas[index],
        })?;
    }
    Ok(seats)
}

/// The problem of a table.
pub fn pose(alloc: Global, names: &Names, table: &Table) -> Result<Problem, BadProblem> {
    let entrants = entrants_of(alloc, names, table)?;
    let seats = seats_of(alloc, names, table)?;
    Problem::new(alloc, entrants, seats)
}

/// What the program offers each of the five.
pub fn given_by(names: &Names, offers: &Offers) -> Given {
    let mut given: Given = [0; 5];
    for index in 0..5 {
        given[index] = number_of(names, offers.of(names.children[index]));
    }
    given
}
