// To replace a child's data.
ghost use Rattle.std.specs.Prelude.{◌≡◌, IfOk};
ghost use Rattle.adm_commands.specs.Tests.{first_failing};
ghost use Rattle.adm_commands.specs.Rules.{Follows};
ghost use Rattle.adm_commands.specs.Commands.Amend.{rules, tests};

use crate::child_values::put_child;
use crate::command_result::{CommandResult, done, refused};
use crate::failing::first_failing;
use adm_register::Tables;
use adm_types::limits::{is_child_of_size, is_name};
use adm_types::{Child, Refusal};
use std::alloc::{AllocError, Global};

/// Why the data are refused.
#[tactic(auto, unfolding(crate::specs::Commands::Amend::tests))]
fn refusal_of(old: &Tables, child: &Child) -> Option<Refusal>
    ensures { result ≡ first_failing (tests old.now child.now) }
{
    let size = old.season().size();
    first_failing(&[
        (old.has_child(child.no), Refusal::UnknownChild),
        (is_name(&child.name), Refusal::BadText),
        (is_child_of_size(size, child), Refusal::OutOfRange),
        (old.has_schools_of(child), Refusal::UnknownSchool),
    ])
}

/// The child's data are written, in place of those that were there.
pub(crate) fn evaluate(
    old: &Tables,
    alloc: Global,
    child: Child,
) -> Result<CommandResult, AllocError>
    ensures { IfOk result (Follows (rules child) old.now) }
{
    match refusal_of(old, &child) {
        Some(refusal) => Ok(refused(refusal)),
        None => Ok(done(put_child(alloc, child)?)),
    }
}
