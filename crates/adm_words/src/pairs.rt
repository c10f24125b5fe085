// Lines of a file and one more argument, or none, read from the values that clap found.
ghost use Rattle.std.specs.Prelude.{◌≡◌, IfOk, option_map};
ghost use Rattle.clap.specs.Words.{found_of, rows_of};
ghost use Rattle.adm_types.specs.Fields.{child_named};
ghost use Rattle.adm_words.specs.Lines.{IsLine, ReadsLine, ReadsArgument, IsInRange, school_named, import_in, letter_in, list_in, report_in, pairs_in, reading_in};

use crate::lines::text_of;
use crate::showing::show;
use crate::{Action, WordsFault};
use adm_types::{ChildNo, SchoolCode, plain};
use clap::ArgMatches;

/// The line `import`, whose values are there.
pub(crate) fn import<'a>(found: &ArgMatches<'a>) -> Result<Action<'a>, WordsFault>
    requires { IsLine (import_in (rows_of (found_of found.now))) }
    ensures reads { ReadsLine (import_in (rows_of (found_of found.now))) result }
    ensures in_range { IfOk result IsInRange }
{
    let Some(file) = text_of(found, "file") else {
        unreachable!()
    };
    let Some(csv) = text_of(found, "csv") else {
        unreachable!()
    };
    Ok(Action::Import { file, csv })
}

/// What an argument is read as; BadWord where it is not of its kind.
pub(crate) fn value<T>(read: Option<T>) -> Result<T, WordsFault>
    ensures { ReadsArgument read result }
{
    read.ok_or(WordsFault::BadWord)
}

/// The child number that a text writes.
fn read_child(text: &str) -> Option<ChildNo>
    ensures { result ≡ child_named text.now }
{
    plain(text).and_then(ChildNo::new)
}

/// The line `letter`, whose values are there.
fn letter<'a>(found: &ArgMatches<'a>) -> Result<Action<'a>, WordsFault>
    requires { IsLine (letter_in (rows_of (found_of found.now))) }
    ensures reads { ReadsLine (letter_in (rows_of (found_of found.now))) result }
    ensures in_range { IfOk result IsInRange }
{
    let Some(file) = text_of(found, "file") else {
        unreachable!()
    };
    let Some(argument) = text_of(found, "child") else {
        unreachable!()
    };
    let child = value(read_child(argument))?;
    Ok(Action::Letter { file, child })
}

/// The line `list`, whose values are there.
fn list<'a>(found: &ArgMatches<'a>) -> Result<Action<'a>, WordsFault>
    requires { IsLine (list_in (rows_of (found_of found.now))) }
    ensures reads { ReadsLine (list_in (rows_of (found_of found.now))) result }
    ensures in_range { IfOk result IsInRange }
{
    let Some(file) = text_of(found, "file") else {
        unreachable!()
    };
    let Some(argument) = text_of(found, "school") else {
        unreachable!()
    };
    let school = value(SchoolCode::new(argument))?;
    Ok(Action::List { file, school })
}

/// The line `round-report`, whose values are there.
fn report<'a>(found: &ArgMatches<'a>) -> Result<Action<'a>, WordsFault>
    requires { IsLine (report_in (rows_of (found_of found.now))) }
    ensures reads { ReadsLine (report_in (rows_of (found_of found.now))) result }
    ensures in_range { IfOk result IsInRange }
{
    let Some(file) = text_of(found, "file") else {
        unreachable!()
    };
    let Some(argument) = text_of(found, "round") else {
        unreachable!()
    };
    let round = value(plain(argument))?;
    Ok(Action::RoundReport { file, round })
}

/// The school of a code, if a code is written.
fn read_school(argument: Option<&str>) -> Option<Option<SchoolCode>>
    ensures { result ≡ school_named (option_map (λ s. s.now) argument.entry) }
{
    match argument {
        None => Some(None),
        Some(argument) => SchoolCode::new(argument).map(Some),
    }
}

/// The line `pairs`, whose file is there.
fn pairs<'a>(found: &ArgMatches<'a>) -> Result<Action<'a>, WordsFault>
    requires { IsLine (pairs_in (rows_of (found_of found.now))) }
    ensures reads { ReadsLine (pairs_in (rows_of (found_of found.now))) result }
    ensures in_range { IfOk result IsInRange }
{
    let Some(file) = text_of(found, "file") else {
        unreachable!()
    };
    let school = value(read_school(text_of(found, "school")))?;
    Ok(Action::Pairs { file, school })
}

/// A line that reads a register, by its name.
pub(crate) fn reading<'a>(name: &str, found: &ArgMatches<'a>) -> Result<Action<'a>, WordsFault>
    requires { IsLine (reading_in name.now (rows_of (found_of found.now))) }
    ensures reads { ReadsLine (reading_in name.now (rows_of (found_of found.now))) result }
    ensures in_range { IfOk result IsInRange }
{
    if name == "letter" {
        letter(found)
    } else if name == "list" {
        list(found)
    } else if name == "round-report" {
        report(found)
    } else if name == "pairs" {
        pairs(found)
    } else if name == "show" {
        show(found)
    } else {
        unreachable!()
    }
}
