// The command line as `clap` sees it: the program with all of its subcommands.
ghost use Rattle.std.specs.Prelude.{◌≡◌, IfOk, false, true};
ghost use Rattle.clap.specs.Words.{App, app_of};
ghost use Rattle.clap.specs.declared.builder.command.Command.TheViews.{out-Command as fields_of};
ghost use Rattle.clap.specs.declared.builder.value_parser.ValueParser.{ValueParser};
ghost use Rattle.adm_words.specs.Building.{IsCommand, Builds};
ghost use Rattle.adm_words.specs.Program.{IsPhases, top_app, with_answerers, with_takers, with_readers, program_app};

use crate::help;
use crate::joining::with;
use crate::subcommands::{
    IMPORT, LETTER, LIST, ROUND_REPORT, do_command, init_command, pair_command, pairs_command,
    serve_command, show_command, what_if_command,
};
use clap::Command;
use std::alloc::{AllocError, Global};

/// The version that `--version` prints.
const VERSION: &str = "0.1.0";

/// The program with the subcommand that makes the register, and with those that answer the standard
/// input over it, line by line.
fn with_answerers<'a>(
    alloc: Global,
    program: Result<Command<'a>, AllocError>,
) -> Result<Command<'a>, AllocError>
    ensures { (app : App) → Builds app program.entry → (phases : ValueParser) × IsPhases phases × Builds (with_answerers phases app) result }
{
    let program = with(program, init_command(alloc));
    let program = with(program, do_command(alloc));
    with(program, what_if_command(alloc))
}

/// The program with the subcommands that take in the rows of a file, or requests.
fn with_takers<'a>(
    alloc: Global,
    program: Result<Command<'a>, AllocError>,
) -> Result<Command<'a>, AllocError>
    ensures { (app : App) → Builds app program.entry → Builds (with_takers app) result }
{
    let program = with(program, pair_command(alloc, &IMPORT));
    with(program, serve_command(alloc))
}

/// The program with the subcommands that print what the register holds.
fn with_readers<'a>(
    alloc: Global,
    program: Result<Command<'a>, AllocError>,
) -> Result<Command<'a>, AllocError>
    ensures { (app : App) → Builds app program.entry → Builds (with_readers app) result }
{
    let program = with(program, pair_command(alloc, &LETTER));
    let program = with(program, pair_command(alloc, &LIST));
    let program = with(program, pair_command(alloc, &ROUND_REPORT));
    let program = with(program, pairs_command(alloc));
    with(program, show_command(alloc))
}

/// The program without its subcommands.
#[tactic(auto, unfolding(crate::specs::Building::IsCommand))]
fn top<'a>(alloc: Global) -> Command<'a>
    ensures { IsCommand top_app result }
{
    Command::new(alloc, "admissions")
        .about("A register for coordinated school admissions")
        .after_help(help::PROGRAM)
        .version(VERSION)
        .subcommand_required(true)
}

pub(crate) fn program<'a>(alloc: Global) -> Result<Command<'a>, AllocError>
    ensures app { IfOk result (λ c. (phases : ValueParser) × IsPhases phases × (app_of c ≡ program_app phases)) }
    ensures local { IfOk result (λ c. (fields_of c).has_globals ≡ false) }
    ensures required { IfOk result (λ c. (fields_of c).subcommand_required ≡ true) }
{
    let program = with_answerers(alloc, Ok(top(alloc)));
    with_readers(alloc, with_takers(alloc, program))
}
