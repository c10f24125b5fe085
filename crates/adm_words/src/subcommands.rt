// The subcommands, one for each line of the command line.
ghost use Rattle.clap.specs.Words.{new_app, with_rule};
ghost use Rattle.clap.specs.declared.builder.value_parser.ValueParser.{ValueParser};
ghost use Rattle.adm_words.specs.Building.{Builds};
ghost use Rattle.adm_words.specs.Program.{IsPhases, file_rule, pair_app, init_app, do_app, what_if_app, serve_app, pairs_app, show_app};

use crate::help;
use crate::joining::{named, with_arg};
use crate::rules::{count, draw, file, holiday, large, phase, port, required, school, year};
use clap::Command;
use std::alloc::{AllocError, Global};

/// The help of a file that is there.
const REGISTER: &str = "The file of the register";

/// A line of the register's file and one more argument: its name, its line in the help and what its
/// own help says more, and the id, the name and the line in the help of the argument.
pub(crate) struct Pair<'a> {
    name: &'a str,
    about: &'a str,
    more: &'a str,
    id: &'a str,
    argument: &'a str,
    help: &'a str,
}

pub(crate) static IMPORT: Pair<'static> = Pair {
    name: "import",
    about: "Adds the children and applications of a CSV file",
    more: help::IMPORT,
    id: "csv",
    argument: "CSV",
    help: "The file of rows",
};

pub(crate) static LETTER: Pair<'static> = Pair {
    name: "letter",
    about: "Prints the letter of a child",
    more: help::LETTER,
    id: "child",
    argument: "CHILD",
    help: "The number of the child",
};

pub(crate) static LIST: Pair<'static> = Pair {
    name: "list",
    about: "Prints the waiting list of a school",
    more: help::LIST,
    id: "school",
    argument: "SCHOOL",
    help: "The code of the school",
};

pub(crate) static ROUND_REPORT: Pair<'static> = Pair {
    name: "round-report",
    about: "Prints the report of a round",
    more: help::ROUND_REPORT,
    id: "round",
    argument: "ROUND",
    help: "The number of the round",
};

/// The command of a line that names a file: its name, its line in the help, what its own help says
/// more, and the line of its file.
fn file_command<'a>(
    alloc: Global,
    name: &'a str,
    about: &'a str,
    more: &'a str,
    help: &'a str,
) -> Result<Command<'a>, AllocError>
    ensures { Builds (with_rule (new_app name.now) file_rule) result }
{
    with_arg(Ok(named(alloc, name, about, more)), file(alloc, help))
}

/// The command of a line of the register's file and one more argument.
pub(crate) fn pair_command<'a>(alloc: Global, pair: &Pair<'a>) -> Result<Command<'a>, AllocError>
    ensures { Builds (pair_app pair.now.name.now pair.now.id.now) result }
{
    let argument = required(alloc, pair.id, pair.argument, pair.help);
    with_arg(
        file_command(alloc, pair.name, pair.about, pair.more, REGISTER),
        argument,
    )
}

pub(crate) fn do_command<'a>(alloc: Global) -> Result<Command<'a>, AllocError>
    ensures { Builds do_app result }
{
    let about = "Answers the commands of the standard input, line by line";
    file_command(alloc, "do", about, help::DO, REGISTER)
}

pub(crate) fn what_if_command<'a>(alloc: Global) -> Result<Command<'a>, AllocError>
    ensures { Builds what_if_app result }
{
    let about = "Reports the place of a child by another list, line by line";
    file_command(alloc, "what-if", about, help::WHAT_IF, REGISTER)
}

pub(crate) fn init_command<'a>(alloc: Global) -> Result<Command<'a>, AllocError>
    ensures { (phases : ValueParser) × IsPhases phases × Builds (init_app phases) result }
{
    let about = "Creates the register of a season";
    let file = "The file to make, or an empty one";
    let init = file_command(alloc, "init", about, help::INIT, file);
    let init = with_arg(init, phase(alloc));
    let init = with_arg(init, year(alloc));
    let init = with_arg(init, holiday(alloc));
    with_arg(init, large(alloc))
}

pub(crate) fn serve_command<'a>(alloc: Global) -> Result<Command<'a>, AllocError>
    ensures { Builds serve_app result }
{
    let about = "Answers requests over HTTP on 127.0.0.1";
    let serve = with_arg(
        file_command(alloc, "serve", about, help::SERVE, REGISTER),
        port(alloc),
    );
    with_arg(serve, count(alloc))
}

pub(crate) fn pairs_command<'a>(alloc: Global) -> Result<Command<'a>, AllocError>
    ensures { Builds pairs_app result }
{
    let about = "Prints for whom lots are drawn, in their order";
    with_arg(
        file_command(alloc, "pairs", about, help::PAIRS, REGISTER),
        school(alloc),
    )
}

pub(crate) fn show_command<'a>(alloc: Global) -> Result<Command<'a>, AllocError>
    ensures { Builds show_app result }
{
    let about = "Prints the register or a draw as JSON";
    with_arg(
        file_command(alloc, "show", about, help::SHOW, REGISTER),
        draw(alloc),
    )
}
