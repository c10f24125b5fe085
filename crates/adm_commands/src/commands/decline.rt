// To decline a place.
ghost use Rattle.std.specs.Prelude.{◌≡◌, IfOk};
ghost use Rattle.adm_commands.specs.Tests.{first_failing};
ghost use Rattle.adm_commands.specs.Rules.{Follows};
ghost use Rattle.adm_commands.specs.Commands.Decline.{rules, tests, change_of};

use crate::command_result::{CommandResult, done, refused};
use crate::failing::first_failing;
use crate::one_row::one;
use adm_register::{Difference, Tables};
use adm_types::{ChildNo, LeftPair, Refusal, SchoolCode};
use std::alloc::{AllocError, Global};

/// Why it is refused.
#[tactic(auto, unfolding(crate::specs::Commands::Decline::tests))]
fn refusal_of(old: &Tables, child: ChildNo, school: SchoolCode) -> Option<Refusal>
    ensures { result ≡ first_failing (tests old.now child school) }
{
    first_failing(&[
        (old.has_child(child), Refusal::UnknownChild),
        (old.has_school(school), Refusal::UnknownSchool),
        (old.is_outside_plan(child, school), Refusal::NotOffered),
    ])
}

/// The place is deleted, and the school is one that the child left.
#[tactic(auto, unfolding(crate::specs::Commands::Decline::change_of))]
pub(crate) fn change_of(
    alloc: Global,
    child: ChildNo,
    school: SchoolCode,
) -> Result<Difference, AllocError>
    ensures { IfOk result (λ change. change ≡ change_of child school) }
{
    let mut change = Difference::none(alloc);
    change.left = one(alloc, LeftPair { child, school })?;
    change.vacated = one(alloc, child)?;
    Ok(change)
}

/// What results from it.
pub(crate) fn evaluate(
    old: &Tables,
    alloc: Global,
    child: ChildNo,
    school: SchoolCode,
) -> Result<CommandResult, AllocError>
    ensures { IfOk result (Follows (rules child school) old.now) }
{
    match refusal_of(old, child, school) {
        Some(refusal) => Ok(refused(refusal)),
        None => Ok(done(change_of(alloc, child, school)?)),
    }
}
