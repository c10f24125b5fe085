// To apply: a child's list of schools, in its order of preference.
ghost use Rattle.std.specs.Prelude.{◌≡◌, IfOk, IsTrue, nat_le};
ghost use Rattle.adm_types.specs.Limits.{first_day};
ghost use Rattle.adm_commands.specs.Tests.{first_failing};
ghost use Rattle.adm_commands.specs.Rules.{Follows};
ghost use Rattle.adm_commands.specs.Commands.Apply.{rules, tests, further_tests};

use crate::command_result::{CommandResult, done, refused};
use crate::failing::first_failing;
use crate::one_row::one;
use adm_register::{Difference, Tables, is_preference_list};
use adm_table::Shared;
use adm_types::{Application, ChildNo, Day, Refusal, SchoolCode};
use std::alloc::{AllocError, Global};

/// Why the application is refused.
#[tactic(auto, unfolding(crate::specs::Commands::Apply::tests))]
fn refusal_of(old: &Tables, application: &Application) -> Option<Refusal>
    ensures { result ≡ first_failing (tests old.now application.now) }
{
    if !old.has_child(application.child) {
        return Some(Refusal::UnknownChild);
    }
    further_refusal_of(
        old,
        application.child,
        application.day,
        application.list.as_slice(),
    )
}

/// Why an application of these values is refused, for a child that is there.
pub(crate) fn further_refusal_of(
    old: &Tables,
    child: ChildNo,
    day: Day,
    list: &[SchoolCode],
) -> Option<Refusal>
    ensures { result ≡ first_failing (further_tests old.now (record { child = child; day = day; list = list.now })) }
{
    let in_time = day <= old.season().lists_end();
    first_failing(&[
        (!old.has_plan(child), Refusal::HasPlan),
        (!old.has_application(child), Refusal::AlreadyApplied),
        (in_time, Refusal::ListClosed),
        (is_preference_list(list), Refusal::BadPreferences),
        (old.are_schools(list), Refusal::UnknownSchool),
    ])
}

/// The application is written.
#[tactic(auto, unfolding(crate::specs::Commands::Apply::change_of))]
pub(crate) fn evaluate(
    old: &Tables,
    alloc: Global,
    application: Application,
) -> Result<CommandResult, AllocError>
    ensures follows { IfOk result (Follows (rules application) old.now) }
    ensures kept { IsTrue (nat_le first_day application.day) }
{
    if let Some(refusal) = refusal_of(old, &application) {
        return Ok(refused(refusal));
    }
    let row = Shared::new(alloc, application)?;
    let mut change = Difference::none(alloc);
    change.applications = one(alloc, row)?;
    Ok(done(change))
}
