// Registers compared and printed, and the register after an act.
mod copies;
mod printed;
mod same;

use crate::registers::same::are_same;
use crate::steps::Act;
use adm_command_laws::decide;
use adm_register::{Register, Rows};
use adm_types::{Command, Season};
pub(crate) use copies::copy_of;
pub(crate) use printed::print_register;
use std::alloc::{AllocError, Global};

fn is_same_season(one: &Season, other: &Season) -> bool {
    one.phase() == other.phase()
        && one.year() == other.year()
        && one.holidays() == other.holidays()
        && one.size() == other.size()
}

fn are_same_rows(one: &Rows, other: &Rows) -> bool {
    is_same_season(&one.season, &other.season)
        && are_same(one.schools.as_slice(), other.schools.as_slice())
        && are_same(one.children.as_slice(), other.children.as_slice())
        && are_same(one.applications.as_slice(), other.applications.as_slice())
        && are_same(one.places.as_slice(), other.places.as_slice())
        && are_same(one.left.as_slice(), other.left.as_slice())
        && are_same(one.imported.as_slice(), other.imported.as_slice())
        && are_same_draws(one, other)
}

fn are_same_draws(one: &Rows, other: &Rows) -> bool {
    one.draws.as_slice() == other.draws.as_slice()
        && one.offers.as_slice() == other.offers.as_slice()
        && one.lots.as_slice() == other.lots.as_slice()
}

/// Whether the register has the season and the rows of this one.
fn has_rows(alloc: Global, register: &Register, rows: &Rows) -> Result<bool, AllocError> {
    let others = register.rows(alloc)?;
    Ok(are_same_rows(rows, &others))
}

/// Whether the two registers have the same season and the same rows. What it takes grows with the rows.
pub(crate) fn is_same(alloc: Global, one: &Register, other: &Register) -> Result<bool, AllocError> {
    let rows = one.rows(alloc)?;
    has_rows(alloc, other, &rows)
}

fn created(season: &Season) -> Option<Register> {
    match season.clone() {
        Ok(season) => Some(Register::new(season)),
        Err(_) => None,
    }
}

fn handled(alloc: Global, register: &Register, command: &Command) -> Option<Register> {
    let Ok(command) = copy_of(command) else {
        return None;
    };
    match decide(register, alloc, command) {
        Ok((after, _)) => Some(after),
        Err(_) => None,
    }
}

/// The register that an act makes of this one. `None` where there is none, or where memory ran out.
pub(crate) fn after(alloc: Global, before: &Option<Register>, act: &Act) -> Option<Register> {
    match (before, act) {
        (None, Act::Create(season)) => created(season),
        (Some(register), Act::Handle(command)) => handled(alloc, register, command),
        _ => None,
    }
}
