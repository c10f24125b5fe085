// How a command is put together: a name, one more argument, one more subcommand.
ghost use Rattle.std.specs.Prelude.{◌≡◌, IfOk};
ghost use Rattle.clap.specs.Words.{App, Rule, new_app, with_rule, with_subcommand};
ghost use Rattle.adm_words.specs.Building.{IsArg, IsCommand, Builds};

use clap::{Arg, Command};
use std::alloc::{AllocError, Global};

/// The command with one more argument, the last.
///
/// It takes the command as a call gave it, and so does `with`: a command has some fifty fields, which
/// a proof carries through each way out, so no function here has several `?` beside one.
#[tactic(auto, unfolding(crate::specs::Building::IsArg, crate::specs::Building::IsCommand))]
pub(crate) fn with_arg<'a>(
    command: Result<Command<'a>, AllocError>,
    arg: Arg<'a>,
) -> Result<Command<'a>, AllocError>
    ensures { (app : App) (rule : Rule) → Builds app command.entry → IsArg rule arg.entry → Builds (with_rule app rule) result }
{
    match command {
        Ok(command) => command.arg(arg),
        Err(error) => Err(error),
    }
}

/// Both values, or the first error. It is generic, so that its proof carries no field of a command.
fn both<A: Drop, B: Drop, E: Drop>(first: Result<A, E>, second: Result<B, E>) -> Result<(A, B), E>
    ensures { IfOk result (λ p. (first ≡ Ok p.0) × (second ≡ Ok p.1)) }
{
    Ok((first?, second?))
}

/// The command with one more subcommand, the last.
#[tactic(auto, unfolding(crate::specs::Building::IsCommand))]
pub(crate) fn with<'a>(
    command: Result<Command<'a>, AllocError>,
    subcommand: Result<Command<'a>, AllocError>,
) -> Result<Command<'a>, AllocError>
    ensures { (app : App) (sub : App) → Builds app command.entry → Builds sub subcommand.entry → Builds (with_subcommand app sub.top) result }
{
    match both(command, subcommand) {
        Ok((command, subcommand)) => command.subcommand(subcommand),
        Err(error) => Err(error),
    }
}

/// A command of this name, with its line in the help and what its own help says more.
#[tactic(auto, unfolding(crate::specs::Building::IsCommand))]
pub(crate) fn named<'a>(alloc: Global, name: &'a str, about: &'a str, more: &'a str) -> Command<'a>
    ensures { IsCommand (new_app name.now) result }
{
    Command::new(alloc, name).about(about).after_help(more)
}
