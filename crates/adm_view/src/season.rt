// The season with its days.
ghost use Rattle.std.specs.Prelude.{◌≡◌, IfOk};
ghost use Rattle.serde_json.specs.View.{view, members_view};
ghost use Rattle.adm_view.specs.Season.{phase_name, offer_day_of, season_members, size_members, season_data};

use crate::kinds::{Kind, list};
use adm_types::{Day, Phase, Season, Size};
use serde_json::{Map, Value};
use std::alloc::{AllocError, Global};

/// The season: its phase, its year of entry, its holidays and its other days, and its size if it is
/// large.
pub(crate) fn season(alloc: Global, season: &Season) -> Result<Value, AllocError>
    ensures { IfOk result (λ made. view made ≡ season_data season.now) }
{
    let object = members(alloc, season)?;
    Ok(Value::from(with_size(alloc, object, season.size())?))
}

/// The members of a season but its size.
fn members(alloc: Global, season: &Season) -> Result<Map<String, Value>, AllocError>
    ensures { IfOk result (λ made. members_view made.entries ≡ season_members season.now) }
{
    let mut object = Map::new(alloc);
    let closing = season.closing().value(alloc)?;
    serde_json::put(&mut object, alloc, "closing", closing)?;
    let holidays = list(alloc, season.holidays())?;
    serde_json::put(&mut object, alloc, "holidays", holidays)?;
    let end = season.lists_end().value(alloc)?;
    serde_json::put(&mut object, alloc, "last_list_day", end)?;
    let offer = offer_day(season).value(alloc)?;
    serde_json::put(&mut object, alloc, "offer_day", offer)?;
    let phase = Value::try_from_str(alloc, phase_name(season.phase()))?;
    serde_json::put(&mut object, alloc, "phase", phase)?;
    serde_json::put(&mut object, alloc, "year", Value::from(season.year()))?;
    Ok(object)
}

/// With the size, if it is large.
fn with_size(
    alloc: Global,
    others: Map<String, Value>,
    size: Size,
) -> Result<Map<String, Value>, AllocError>
    ensures { IfOk result (λ made. members_view made.entries ≡ size_members size (members_view others.entries)) }
{
    match size {
        Size::Standard => Ok(others),
        Size::Large => {
            let mut object = others;
            let large = Value::try_from_str(alloc, "large")?;
            serde_json::put(&mut object, alloc, "size", large)?;
            Ok(object)
        }
    }
}

fn phase_name(phase: Phase) -> &'static str
    ensures { result.now ≡ phase_name phase }
{
    match phase {
        Phase::Primary => "primary",
        Phase::Secondary => "secondary",
    }
}

fn offer_day(season: &Season) -> Day
    ensures { result ≡ offer_day_of season.now }
{
    let day = season.offer_day();
    // Read only so that the check sees that it is a day of the calendar.
    let _number = day.number();
    day
}
