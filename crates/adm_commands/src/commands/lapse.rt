// To let an offer lapse.
ghost use Rattle.std.specs.Prelude.{◌≡◌, IfOk};
ghost use Rattle.adm_commands.specs.Tests.{first_failing};
ghost use Rattle.adm_commands.specs.Rules.{Follows};
ghost use Rattle.adm_commands.specs.Commands.Lapse.{rules, tests};

use crate::command_result::{CommandResult, done, refused};
use crate::commands::decline::change_of;
use crate::failing::first_failing;
use crate::offered::{is_after_reminder, is_reminded, offer_at};
use adm_register::Tables;
use adm_types::{ChildNo, Day, Refusal, SchoolCode};
use std::alloc::{AllocError, Global};

/// Why it is refused.
#[tactic(auto, unfolding(crate::specs::Commands::Lapse::tests))]
fn refusal_of(old: &Tables, child: ChildNo, school: SchoolCode, day: Day) -> Option<Refusal>
    ensures { result ≡ first_failing (tests old.now child school day) }
{
    let offer = offer_at(old, child, school);
    first_failing(&[
        (old.has_child(child), Refusal::UnknownChild),
        (old.has_school(school), Refusal::UnknownSchool),
        (offer.is_some(), Refusal::NotOffered),
        (is_reminded(offer), Refusal::NotReminded),
        (is_after_reminder(offer, day), Refusal::TooSoon),
    ])
}

/// The place is deleted as by declining it.
pub(crate) fn evaluate(
    old: &Tables,
    alloc: Global,
    child: ChildNo,
    school: SchoolCode,
    day: Day,
) -> Result<CommandResult, AllocError>
    ensures { IfOk result (Follows (rules child school day) old.now) }
{
    match refusal_of(old, child, school, day) {
        Some(refusal) => Ok(refused(refusal)),
        None => Ok(done(change_of(alloc, child, school)?)),
    }
}
