// To remind of an offer.
ghost use Rattle.std.specs.Prelude.{◌≡◌, IfOk, IsTrue, nat_le};
ghost use Rattle.adm_types.specs.Limits.{last_day};
ghost use Rattle.adm_commands.specs.Tests.{first_failing};
ghost use Rattle.adm_commands.specs.Rules.{Follows};
ghost use Rattle.adm_commands.specs.Commands.Remind.{rules, tests};

use crate::command_result::{CommandResult, done, refused};
use crate::failing::first_failing;
use crate::offered::{is_after_offer, is_reminded, offer_at};
use crate::one_row::one_place;
use adm_register::{Difference, Tables};
use adm_types::{ChildNo, Day, PlaceState, Refusal, SchoolCode};
use std::alloc::{AllocError, Global};

/// Why it is refused.
#[tactic(auto, unfolding(crate::specs::Commands::Remind::tests))]
fn refusal_of(old: &Tables, child: ChildNo, school: SchoolCode, day: Day) -> Option<Refusal>
    ensures { result ≡ first_failing (tests old.now child school day) }
{
    let offer = offer_at(old, child, school);
    first_failing(&[
        (old.has_child(child), Refusal::UnknownChild),
        (old.has_school(school), Refusal::UnknownSchool),
        (offer.is_some(), Refusal::NotOffered),
        (!is_reminded(offer), Refusal::AlreadyReminded),
        (is_after_offer(offer, day), Refusal::TooSoon),
    ])
}

/// The offer is written again, with the day of its reminder.
#[tactic(auto, unfolding(crate::specs::Commands::Remind::change_of))]
pub(crate) fn evaluate(
    old: &Tables,
    alloc: Global,
    child: ChildNo,
    school: SchoolCode,
    day: Day,
) -> Result<CommandResult, AllocError>
    ensures follows { IfOk result (Follows (rules child school day) old.now) }
    ensures kept { IsTrue (nat_le day last_day) }
{
    if let Some(refusal) = refusal_of(old, child, school, day) {
        return Ok(refused(refusal));
    }
    let mut change = Difference::none(alloc);
    if let Some((offered, _)) = offer_at(old, child, school) {
        let state = PlaceState::Offered {
            day: offered,
            reminded: Some(day),
        };
        change.places = one_place(alloc, child, school, state)?;
    }
    Ok(done(change))
}
