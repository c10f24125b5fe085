// Offers of places, and their days.
ghost use Rattle.std.specs.Prelude.{◌≡◌};
ghost use Rattle.std.specs.FinMap.{get};
ghost use Rattle.adm_commands.specs.Offered.{offer_days, offer_at, is_reminded, is_after_offer, is_after_reminder};

use adm_register::Tables;
use adm_types::{ChildNo, Day, PlaceState, SchoolCode};

/// The day of the offer of a place at the school, and of its reminder, if the child has one.
pub(crate) fn offer_at(
    old: &Tables,
    child: ChildNo,
    school: SchoolCode,
) -> Option<(Day, Option<Day>)>
    ensures { result ≡ offer_at (get old.now.places child) school }
{
    match old.place_row(child) {
        None => None,
        Some(row) => {
            if row.place.school == school {
                days_of(&row.place.state)
            } else {
                None
            }
        }
    }
}

/// The day of an offer and that of its reminder.
fn days_of(state: &PlaceState) -> Option<(Day, Option<Day>)>
    ensures { result ≡ offer_days state.now }
{
    match state {
        PlaceState::Offered { day, reminded } => Some((*day, *reminded)),
        PlaceState::Accepted | PlaceState::Plan => None,
    }
}

/// Whether the offer was reminded.
pub(crate) fn is_reminded(offer: Option<(Day, Option<Day>)>) -> bool
    ensures { result ≡ is_reminded offer }
{
    match offer {
        None => false,
        Some((_, None)) => false,
        Some((_, Some(_))) => true,
    }
}

/// Whether the day comes at least 14 days after the offer.
pub(crate) fn is_after_offer(offer: Option<(Day, Option<Day>)>, day: Day) -> bool
    ensures { result ≡ is_after_offer offer day }
{
    match offer {
        None => false,
        Some((offered, _)) => offered.number() + 14 <= day.number(),
    }
}

/// Whether the day comes at least 14 days after the reminder.
pub(crate) fn is_after_reminder(offer: Option<(Day, Option<Day>)>, day: Day) -> bool
    ensures { result ≡ is_after_reminder offer day }
{
    match offer {
        None => false,
        Some((_, None)) => false,
        Some((_, Some(reminded))) => reminded.number() + 14 <= day.number(),
    }
}
