// Problems, from short tables.
use adm_match::{BadProblem, Entrant, Offers, Problem, Seats, Wish, offers};
use adm_match_laws::first_block;
use adm_rank::RankKey;
use adm_types::{ChildNo, SchoolCode};
use std::alloc::Global;
use std::test::Fail;

/// A child's wish: its number, the school, its distance and its lot there. The class is 1.
pub type Line = (u32, &'static str, u32, u32);

/// A problem: the children, their wishes, who is a tenant of which school, and the quotas.
#[derive(Clone, Copy)]
pub struct Table {
    pub children: &'static [u32],
    pub lines: &'static [Line],
    pub tenants: &'static [(u32, &'static str)],
    pub seats: &'static [(&'static str, u32)],
}

pub fn code(text: &str) -> Result<SchoolCode, Fail> {
    Ok(SchoolCode::new(text).ok_or("a code")?)
}

pub fn child(number: u32) -> Result<ChildNo, Fail> {
    Ok(ChildNo::new(number).ok_or("a number")?)
}

fn wish(line: Line) -> Result<Wish, Fail> {
    let key = RankKey {
        class: 1,
        distance: line.2,
        lot: line.3,
    };
    Ok(Wish {
        school: code(line.1)?,
        key,
    })
}

fn list_of(alloc: Global, table: Table, number: u32) -> Result<Vec<Wish>, Fail> {
    let mut list = Vec::new(alloc);
    for line in table.lines {
        if line.0 == number {
            list.push(wish(*line)?)?;
        }
    }
    Ok(list)
}

fn tenancy_of(table: Table, number: u32) -> Result<Option<SchoolCode>, Fail> {
    for tenant in table.tenants {
        if tenant.0 == number {
            return Ok(Some(code(tenant.1)?));
        }
    }
    Ok(None)
}

fn entrants_of(alloc: Global, table: Table) -> Result<Vec<Entrant>, Fail> {
    let mut entrants = Vec::new(alloc);
    for number in table.children {
        entrants.push(Entrant {
            child: child(*number)?,
            list: list_of(alloc, table, *number)?,
            tenant: tenancy_of(table, *number)?,
        })?;
    }
    Ok(entrants)
}

fn seats_of(alloc: Global, table: Table) -> Result<Vec<Seats>, Fail> {
    let mut seats = Vec::new(alloc);
    for seat in table.seats {
        seats.push(Seats {
            code: code(seat.0)?,
            quota: seat.1,
        })?;
    }
    Ok(seats)
}

/// What `Problem::new` answers.
pub fn pose(alloc: Global, table: Table) -> Result<Result<Problem, BadProblem>, Fail> {
    let entrants = entrants_of(alloc, table)?;
    let seats = seats_of(alloc, table)?;
    Ok(Problem::new(alloc, entrants, seats))
}

pub fn problem(alloc: Global, table: Table) -> Result<Problem, Fail> {
    match pose(alloc, table)? {
        Ok(problem) => Ok(problem),
        Err(_) => Err(Fail::from("a problem")),
    }
}

/// What is given, where no pair blocks.
pub fn allot(alloc: Global, table: Table) -> Result<Offers, Fail> {
    let problem = problem(alloc, table)?;
    let given = offers(alloc, &problem)?;
    if first_block(&problem, &given).is_some() {
        return Err(Fail::from("a pair blocks"));
    }
    Ok(given)
}

/// Whether the child has the school.
pub fn has(given: &Offers, number: u32, school: &str) -> Result<bool, Fail> {
    Ok(given.of(child(number)?) == Some(code(school)?))
}

/// Whether the child has no school.
pub fn has_none(given: &Offers, number: u32) -> Result<bool, Fail> {
    Ok(given.of(child(number)?).is_none())
}
