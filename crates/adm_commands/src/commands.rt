// What results from each command, by its own module.
ghost use Rattle.std.specs.Prelude.{◌≡◌, IfOk};
ghost use Rattle.adm_register.specs.Draws.{IsWithin, draws_so_far};
ghost use Rattle.adm_register.specs.WellFormed.{WellFormed};
ghost use Rattle.adm_commands.specs.Commands.{rules_of, KeptByTypes};
ghost use Rattle.adm_commands.specs.Rules.{Follows};

mod accept;
mod add_child;
mod add_school;
mod amend;
mod apply;
mod decline;
mod fill;
mod import;
mod lapse;
mod leave_list;
mod name_plan;
mod raise_pan;
mod remind;
mod round;

use crate::command_result::CommandResult;
use crate::kept::{kept_by_child, kept_by_round, kept_by_school};
use adm_register::{DrawsSoFar, Tables};
use adm_types::Command;
use std::alloc::{AllocError, Global};

/// The result of the command: what it changes and its reply, or the refusal of the first of its
/// tests that fails, beside the row of an import, which is 0 for a command without rows.
pub(crate) fn evaluate(
    old: &Tables,
    so_far: &DrawsSoFar,
    alloc: Global,
    command: Command,
) -> Result<CommandResult, AllocError>
    requires well_formed { WellFormed old.now }
    requires draws { so_far.now ≡ draws_so_far old.now }
    requires within { IsWithin so_far.now }
    ensures follows { IfOk result (Follows (rules_of command) old.now) }
    ensures kept { KeptByTypes command }
{
    match command {
        Command::AddSchool(school) => {
            kept_by_school(&school);
            add_school::evaluate(old, alloc, school)
        }
        Command::RaisePan { school, pan } => raise_pan::evaluate(old, alloc, school, pan),
        Command::AddChild(child) => {
            kept_by_child(&child);
            add_child::evaluate(old, alloc, child)
        }
        Command::Amend(child) => {
            kept_by_child(&child);
            amend::evaluate(old, alloc, child)
        }
        Command::NamePlan { child, school } => name_plan::evaluate(old, alloc, child, school),
        Command::Apply(application) => apply::evaluate(old, alloc, application),
        Command::Round { draw, day, lots } => {
            kept_by_round(day, &lots);
            round::evaluate(old, so_far, alloc, draw, day, &lots)
        }
        Command::Accept { child, school } => accept::evaluate(old, alloc, child, school),
        Command::Decline { child, school } => decline::evaluate(old, alloc, child, school),
        Command::Remind { child, school, day } => remind::evaluate(old, alloc, child, school, day),
        Command::Lapse { child, school, day } => lapse::evaluate(old, alloc, child, school, day),
        Command::LeaveList { child, school } => leave_list::evaluate(old, alloc, child, school),
        Command::Fill {
            draw,
            school,
            day,
            lots,
        } => {
            kept_by_round(day, &lots);
            fill::evaluate(old, so_far, alloc, draw, school, day, &lots)
        }
        Command::Import(rows) => import::evaluate(old, alloc, rows),
    }
}
