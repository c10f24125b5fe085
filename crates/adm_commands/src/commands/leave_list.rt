// To take a child off the waiting list of a school.
ghost use Rattle.std.specs.Prelude.{◌≡◌, IfOk};
ghost use Rattle.adm_commands.specs.Tests.{first_failing};
ghost use Rattle.adm_commands.specs.Rules.{Follows};
ghost use Rattle.adm_commands.specs.Commands.LeaveList.{rules, tests};

use crate::command_result::{CommandResult, done, refused};
use crate::failing::first_failing;
use crate::one_row::one;
use adm_register::{Difference, Tables};
use adm_types::{ChildNo, LeftPair, Refusal, SchoolCode};
use std::alloc::{AllocError, Global};

/// Why it is refused.
#[tactic(auto, unfolding(crate::specs::Commands::LeaveList::tests))]
fn refusal_of(old: &Tables, child: ChildNo, school: SchoolCode) -> Option<Refusal>
    ensures { result ≡ first_failing (tests old.now child school) }
{
    first_failing(&[
        (old.has_child(child), Refusal::UnknownChild),
        (old.has_school(school), Refusal::UnknownSchool),
        (old.is_waiting(child, school), Refusal::NotWaiting),
    ])
}

/// The school is one that the child left.
#[tactic(auto, unfolding(crate::specs::Commands::LeaveList::change_of))]
pub(crate) fn evaluate(
    old: &Tables,
    alloc: Global,
    child: ChildNo,
    school: SchoolCode,
) -> Result<CommandResult, AllocError>
    ensures { IfOk result (Follows (rules child school) old.now) }
{
    if let Some(refusal) = refusal_of(old, child, school) {
        return Ok(refused(refusal));
    }
    let mut change = Difference::none(alloc);
    change.left = one(alloc, LeftPair { child, school })?;
    Ok(done(change))
}
