// The line that prints the register or a draw as JSON, read from the values that clap found.
ghost use Rattle.std.specs.Prelude.{◌≡◌, IfOk, option_map};
ghost use Rattle.clap.specs.Words.{found_of, rows_of};
ghost use Rattle.adm_words.specs.Lines.{IsLine, ReadsLine, IsInRange, draw_named, show_in};

use crate::lines::text_of;
use crate::pairs::value;
use crate::{Action, WordsFault};
use adm_types::plain;
use clap::ArgMatches;

/// The number of a draw, if one is written.
fn read_draw(argument: Option<&str>) -> Option<Option<u32>>
    ensures { result ≡ draw_named (option_map (λ s. s.now) argument.entry) }
{
    match argument {
        None => Some(None),
        Some(argument) => match plain(argument) {
            Some(number) => Some(Some(number)),
            None => None,
        },
    }
}

/// The line `show`, whose file is there.
pub(crate) fn show<'a>(found: &ArgMatches<'a>) -> Result<Action<'a>, WordsFault>
    requires { IsLine (show_in (rows_of (found_of found.now))) }
    ensures reads { ReadsLine (show_in (rows_of (found_of found.now))) result }
    ensures in_range { IfOk result IsInRange }
{
    let Some(file) = text_of(found, "file") else {
        unreachable!()
    };
    match value(read_draw(text_of(found, "draw"))) {
        Ok(draw) => Ok(Action::Show { file, draw }),
        Err(fault) => Err(fault),
    }
}
