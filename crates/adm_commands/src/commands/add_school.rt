// To add a school.
ghost use Rattle.std.specs.Prelude.{◌≡◌, IfOk};
ghost use Rattle.adm_commands.specs.Tests.{first_failing};
ghost use Rattle.adm_commands.specs.Rules.{Follows};
ghost use Rattle.adm_commands.specs.Commands.AddSchool.{rules, tests};

use crate::command_result::{CommandResult, done, refused};
use crate::failing::first_failing;
use crate::one_row::one;
use adm_register::{Difference, Tables};
use adm_table::Shared;
use adm_types::limits::{is_name, is_school_of_size};
use adm_types::{Refusal, School};
use std::alloc::{AllocError, Global};

/// Why the school is refused.
#[tactic(auto, unfolding(crate::specs::Commands::AddSchool::tests))]
fn refusal_of(old: &Tables, school: &School) -> Option<Refusal>
    ensures { result ≡ first_failing (tests old.now school.now) }
{
    let size = old.season().size();
    let most = size.most_schools();
    first_failing(&[
        (!old.has_school(school.code), Refusal::SchoolKnown),
        (is_name(&school.name), Refusal::BadText),
        (is_school_of_size(size, school), Refusal::OutOfRange),
        (old.school_count() < most, Refusal::RegisterFull),
    ])
}

/// The school is written.
#[tactic(auto, unfolding(crate::specs::Commands::AddSchool::change_of))]
pub(crate) fn evaluate(
    old: &Tables,
    alloc: Global,
    school: School,
) -> Result<CommandResult, AllocError>
    ensures { IfOk result (Follows (rules school) old.now) }
{
    if let Some(refusal) = refusal_of(old, &school) {
        return Ok(refused(refusal));
    }
    let row = Shared::new(alloc, school)?;
    let mut change = Difference::none(alloc);
    change.schools = one(alloc, row)?;
    Ok(done(change))
}
