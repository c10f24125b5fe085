// The application of a child, and what became of each of its preferences.
ghost use Rattle.std.specs.Prelude.{◌≡◌, Some, IfOk, IsTrue, map};
ghost use Rattle.adm_types.specs.Limits.{is_school_in_range, is_child_in_range};
ghost use Rattle.std.specs.FinMap as rows;
ghost use Rattle.serde_json.specs.View.{view, members_view};
ghost use Rattle.adm_view.specs.Waits.{HasWaitsOf};
ghost use Rattle.adm_view.specs.Children.{is_place_at, preference_state, rank_members, wait_members, preference_data, application_data};

use crate::kinds::Kind;
use crate::waits::{Waits, standing};
use adm_rank::{class, distance};
use adm_register::{Register, Standing};
use adm_types::{Application, Child, ChildNo, Place, School, SchoolCode};
use serde_json::{Map, Value, json};
use std::alloc::{AllocError, Global};

/// The application of a child, with what became of each preference; null for none.
pub(crate) fn application(
    alloc: Global,
    register: &Register,
    waits: &Waits,
    child: &Child,
) -> Result<Value, AllocError>
    requires waits { HasWaitsOf register.now child.now.no waits.now }
    requires child { rows.get register.now.children child.now.no ≡ Some child.now }
    ensures { IfOk result (λ made. view made ≡ application_data register.now child.now (rows.get register.now.applications child.now.no)) }
{
    match register.application(child.no) {
        None => Ok(Value::Null),
        Some(application) => applied(alloc, register, waits, child, application),
    }
}

fn applied(
    alloc: Global,
    register: &Register,
    waits: &Waits,
    child: &Child,
    application: &Application,
) -> Result<Value, AllocError>
    requires waits { HasWaitsOf register.now child.now.no waits.now }
    requires child { rows.get register.now.children child.now.no ≡ Some child.now }
    ensures { IfOk result (λ made. view made ≡ application_data register.now child.now (Some application.now)) }
{
    let day = application.day.value(alloc)?;
    let preferences = preferences(alloc, register, waits, child, application.list.as_slice())?;
    json!(in alloc; {"day": day, "preferences": preferences})
}

/// The preferences of a child, in their order.
fn preferences(
    alloc: Global,
    register: &Register,
    waits: &Waits,
    child: &Child,
    list: &[SchoolCode],
) -> Result<Vec<Value>, AllocError>
    requires waits { HasWaitsOf register.now child.now.no waits.now }
    requires child { rows.get register.now.children child.now.no ≡ Some child.now }
    ensures { IfOk result (λ made. map view made.items ≡ map (preference_data register.now child.now) list.now) }
{
    let mut made = Vec::new(alloc);
    for school in list {
        made.push(preference(alloc, register, waits, child, *school)?)?;
    }
    Ok(made)
}

fn preference(
    alloc: Global,
    register: &Register,
    waits: &Waits,
    child: &Child,
    school: SchoolCode,
) -> Result<Value, AllocError>
    requires waits { HasWaitsOf register.now child.now.no waits.now }
    requires child { rows.get register.now.children child.now.no ≡ Some child.now }
    ensures { IfOk result (λ made. view made ≡ preference_data register.now child.now school) }
{
    let ranked = rank(alloc, register, child, school)?;
    let mut object = with_wait(alloc, ranked, standing(register, waits, child, school))?;
    serde_json::put(&mut object, alloc, "school", school.value(alloc)?)?;
    let state = Value::try_from_str(alloc, state(register, child.no, school))?;
    serde_json::put(&mut object, alloc, "state", state)?;
    Ok(Value::from(object))
}

/// The class and the distance of the child at a school, where there is such a school.
fn rank(
    alloc: Global,
    register: &Register,
    child: &Child,
    school: SchoolCode,
) -> Result<Map<String, Value>, AllocError>
    requires { rows.get register.now.children child.now.no ≡ Some child.now }
    ensures { IfOk result (λ made. members_view made.entries ≡ rank_members (rows.get register.now.schools school) child.now) }
{
    // Read only so that the check sees that the rows are a register's.
    let _tables = register.tables();
    match register.school(school) {
        None => Ok(Map::new(alloc)),
        Some(school) => rank_at(alloc, school, child),
    }
}

fn rank_at(alloc: Global, school: &School, child: &Child) -> Result<Map<String, Value>, AllocError>
    requires school { IsTrue (is_school_in_range school.now) }
    requires child { IsTrue (is_child_in_range child.now) }
    ensures { IfOk result (λ made. members_view made.entries ≡ rank_members (Some school.now) child.now) }
{
    let class = class(school, child);
    let metres = distance(school.at, child.home);
    let mut object = Map::new(alloc);
    serde_json::put(&mut object, alloc, "class", Value::from(class))?;
    serde_json::put(&mut object, alloc, "metres", Value::from(metres))?;
    Ok(object)
}

/// With the position and the length of the waiting list, where the child waits.
fn with_wait(
    alloc: Global,
    others: Map<String, Value>,
    standing: Option<Standing>,
) -> Result<Map<String, Value>, AllocError>
    ensures { IfOk result (λ made. members_view made.entries ≡ wait_members standing (members_view others.entries)) }
{
    let mut object = others;
    if let Some(standing) = standing {
        serde_json::put(&mut object, alloc, "of", Value::from(standing.many))?;
        let position = Value::from(standing.entry.position);
        serde_json::put(&mut object, alloc, "position", position)?;
    }
    Ok(object)
}

/// What became of a listed school.
fn state(register: &Register, child: ChildNo, school: SchoolCode) -> &'static str
    ensures { result.now ≡ preference_state register.now child school }
{
    let tables = register.tables();
    if is_place_at(register.place(child), school) {
        "place"
    } else if tables.has_left(child, school) {
        "left"
    } else if !tables.has_first_round() {
        "before"
    } else if register.waits(child, school) {
        "waits"
    } else {
        "below"
    }
}

/// Whether the place is at the school.
fn is_place_at(place: Option<Place>, school: SchoolCode) -> bool
    ensures { result ≡ is_place_at place school }
{
    match place {
        None => false,
        Some(place) => place.school == school,
    }
}
