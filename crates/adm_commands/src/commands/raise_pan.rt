// To raise the admission number of a school.
ghost use Rattle.std.specs.Prelude.{◌≡◌, IfOk, option_copied};
ghost use Rattle.adm_commands.specs.Tests.{first_failing};
ghost use Rattle.adm_commands.specs.Rules.{Follows};
ghost use Rattle.adm_commands.specs.Commands.RaisePan.{rules, may_have, tests, with_pan};

use crate::command_result::{CommandResult, done, refused};
use crate::failing::first_failing;
use crate::one_row::one;
use adm_register::{Difference, Tables};
use adm_table::Shared;
use adm_types::limits::is_pan;
use adm_types::{Refusal, School, SchoolCode, Seq};
use std::alloc::{AllocError, Global};

/// Whether this is an admission number, and not below that of the school.
fn may_have(school: Option<&School>, pan: u32) -> bool
    ensures { result ≡ may_have (option_copied school.entry) pan }
{
    match school {
        Some(school) => is_pan(pan) && school.pan <= pan,
        None => false,
    }
}

/// Why it is refused.
#[tactic(auto, unfolding(crate::specs::Commands::RaisePan::tests))]
fn refusal_of(old: &Tables, school: SchoolCode, pan: u32) -> Option<Refusal>
    ensures { result ≡ first_failing (tests old.now school pan) }
{
    first_failing(&[
        (old.has_school(school), Refusal::UnknownSchool),
        (may_have(old.school(school), pan), Refusal::OutOfRange),
    ])
}

/// The school with this number, where there is one.
fn with_pan(
    alloc: Global,
    school: Option<&School>,
    pan: u32,
) -> Result<Seq<Shared<School>>, AllocError>
    ensures { IfOk result (λ rows. rows ≡ with_pan (option_copied school.entry) pan) }
{
    let Some(school) = school else {
        return Ok(Seq::new(alloc));
    };
    let mut row = school.clone()?;
    row.pan = pan;
    one(alloc, Shared::new(alloc, row)?)
}

/// The school has the number.
#[tactic(auto, unfolding(crate::specs::Commands::RaisePan::change_of))]
pub(crate) fn evaluate(
    old: &Tables,
    alloc: Global,
    school: SchoolCode,
    pan: u32,
) -> Result<CommandResult, AllocError>
    ensures { IfOk result (Follows (rules school pan) old.now) }
{
    if let Some(refusal) = refusal_of(old, school, pan) {
        return Ok(refused(refusal));
    }
    let mut change = Difference::none(alloc);
    change.schools = with_pan(alloc, old.school(school), pan)?;
    Ok(done(change))
}
