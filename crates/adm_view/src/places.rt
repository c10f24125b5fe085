// The place of a child.
ghost use Rattle.std.specs.Prelude.{◌≡◌, Some, IfOk};
ghost use Rattle.serde_json.specs.View.{view};
ghost use Rattle.adm_view.specs.Children.{kind_of, offered_data, day_or_null, reminded_data, place_data};

use crate::kinds::Kind;
use adm_types::{Day, Place, PlaceState};
use serde_json::{Value, json};
use std::alloc::{AllocError, Global};

/// A place with the days of its offer and reminder; null for none.
pub(crate) fn place(alloc: Global, place: Option<Place>) -> Result<Value, AllocError>
    ensures { IfOk result (λ made. view made ≡ place_data place) }
{
    match place {
        None => Ok(Value::Null),
        Some(place) => held(alloc, place),
    }
}

fn held(alloc: Global, place: Place) -> Result<Value, AllocError>
    ensures { IfOk result (λ made. view made ≡ place_data (Some place)) }
{
    let offered = offered(alloc, place.state)?;
    let reminded = reminded(alloc, place.state)?;
    let kind = kind(place.state);
    let school = place.school.as_str();
    json!(in alloc; {"kind": kind, "offered": offered, "reminded": reminded, "school": school})
}

fn kind(state: PlaceState) -> &'static str
    ensures { result.now ≡ kind_of state }
{
    match state {
        PlaceState::Offered { .. } => "offered",
        PlaceState::Accepted => "accepted",
        PlaceState::Plan => "plan",
    }
}

/// The day of an offer.
fn offered(alloc: Global, state: PlaceState) -> Result<Value, AllocError>
    ensures { IfOk result (λ made. view made ≡ offered_data state) }
{
    match state {
        PlaceState::Offered { day, reminded: _ } => day.value(alloc),
        PlaceState::Accepted | PlaceState::Plan => Ok(Value::Null),
    }
}

/// The day of a reminder.
fn reminded(alloc: Global, state: PlaceState) -> Result<Value, AllocError>
    ensures { IfOk result (λ made. view made ≡ reminded_data state) }
{
    match state {
        PlaceState::Offered { day: _, reminded } => day_or_null(alloc, reminded),
        PlaceState::Accepted | PlaceState::Plan => Ok(Value::Null),
    }
}

pub(crate) fn day_or_null(alloc: Global, day: Option<Day>) -> Result<Value, AllocError>
    ensures { IfOk result (λ made. view made ≡ day_or_null day) }
{
    match day {
        None => Ok(Value::Null),
        Some(day) => day.value(alloc),
    }
}
