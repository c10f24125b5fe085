// Schools with the places that are taken, those that are left, and how many wait.
ghost use Rattle.std.specs.Prelude.{◌≡◌, Some, IfOk, All, map, length, count_by, bytes_eq};
ghost use Rattle.std.specs.FinMap as rows;
ghost use Rattle.serde_json.specs.View.{view};
ghost use Rattle.adm_types.specs.declared.rows.School.{School as SchoolRow};
ghost use Rattle.adm_register.specs.Waits.{waiting_at};
ghost use Rattle.adm_view.specs.Waits.{HasRanks, HasWaits};
ghost use Rattle.adm_view.specs.Schools.{is_plan_at, school_data, schools_data};

use crate::kinds::{Kind, list};
use crate::waits::{Waits, waits_at};
use adm_register::{Register, is_plan};
use adm_table::Shared;
use adm_types::{PlaceRow, School, SchoolCode};
use serde_json::{Value, json};
use std::alloc::{AllocError, Global};

/// All schools, by their codes.
pub(crate) fn schools(
    alloc: Global,
    register: &Register,
    waits: &Waits,
) -> Result<Value, AllocError>
    requires { HasWaits register.now waits.now }
    ensures { IfOk result (λ made. view made ≡ schools_data register.now) }
{
    let tables = register.tables();
    let places = tables.all_places(alloc)?;
    let all = tables.all_schools(alloc)?;
    Ok(Value::from(each_school(alloc, register, waits, &places, &all)?))
}

fn each_school(
    alloc: Global,
    register: &Register,
    waits: &Waits,
    places: &[PlaceRow],
    schools: &[Shared<School>],
) -> Result<Vec<Value>, AllocError>
    requires waits { HasWaits register.now waits.now }
    requires places { places.now ≡ rows.values register.now.places }
    requires schools { All (λ (school : SchoolRow). rows.get register.now.schools school.code ≡ Some school) schools.now }
    ensures { IfOk result (λ made. map view made.items ≡ map (school_data register.now) schools.now) }
{
    let mut made = Vec::new(alloc);
    for index in 0..schools.len() {
        let one = schools[index].as_ref();
        made.push(school(alloc, register, waits, places, one)?)?;
    }
    Ok(made)
}

/// One school by itself. It takes memory for all places.
pub(crate) fn one_school(
    alloc: Global,
    register: &Register,
    one: &School,
) -> Result<Value, AllocError>
    requires { rows.get register.now.schools one.now.code ≡ Some one.now }
    ensures { IfOk result (λ made. view made ≡ school_data register.now one.now) }
{
    let waits = waits_at(alloc, register, &[one.code])?;
    let places = register.tables().all_places(alloc)?;
    school(alloc, register, &waits, &places, one)
}

fn school(
    alloc: Global,
    register: &Register,
    waits: &Waits,
    places: &[PlaceRow],
    school: &School,
) -> Result<Value, AllocError>
    requires waits { HasRanks register.now waits.now school.now }
    requires places { places.now ≡ rows.values register.now.places }
    ensures { IfOk result (λ made. view made ≡ school_data register.now school.now) }
{
    let taken = count_taken(places, school.code);
    let pan = school.pan as usize;
    json!(in alloc; {
        "criteria": (list(alloc, school.criteria.as_slice())?),
        "east": (school.at.east),
        "name": (school.name.as_str()),
        "north": (school.at.north),
        "pan": pan,
        "plans": (count_plans(places, school.code)),
        "school": (school.code.as_str()),
        "taken": taken,
        "vacancies": (pan.saturating_sub(taken)),
        "waiting": (count_waiting(register, waits, school))
    })
}

/// How many places there are at the school.
fn count_taken(places: &[PlaceRow], code: SchoolCode) -> usize
    ensures { result ≡ count_by (λ row. bytes_eq row.place.school code) places.now }
{
    places.iter().filter(|row| row.place.school == code).count()
}

/// How many places of plans there are at the school.
fn count_plans(places: &[PlaceRow], code: SchoolCode) -> usize
    ensures { result ≡ count_by (is_plan_at code) places.now }
{
    places
        .iter()
        .filter(|row| row.place.school == code && is_plan(&row.place.state))
        .count()
}

/// How many children wait at the school.
fn count_waiting(register: &Register, waits: &Waits, school: &School) -> usize
    requires { HasRanks register.now waits.now school.now }
    ensures { result ≡ length (waiting_at register.now school.now.code) }
{
    // Read only so that the check sees that the rows are a register's.
    let _tables = register.tables();
    match waits.get(&school.code) {
        Some(ranks) => ranks.as_slice().len(),
        None => 0,
    }
}
