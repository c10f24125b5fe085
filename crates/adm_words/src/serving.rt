// The line that serves requests, read from the values that clap found.
ghost use Rattle.std.specs.Prelude.{◌≡◌, ◌≤◌, IfOk, IfSome};
ghost use Rattle.clap.specs.Words.{found_of, rows_of};
ghost use Rattle.adm_words.specs.Lines.{IsLine, ReadsLine, IsInRange, port_of, port_in, count_in, serve_in};

use crate::lines::{read_from, text_of};
use crate::{Action, WordsFault};
use clap::ArgMatches;

/// How many connections are served where the arguments do not say it.
const MOST_CONNECTIONS: u32 = 1_000_000;

/// The port that a text writes, from 1 to 65535.
fn read_port(text: &str) -> Option<u16>
    ensures value { result ≡ port_of text.now }
    ensures in_range { IfSome result (λ port. (1 ≤ port) × (port ≤ 65535)) }
{
    let port = read_from(text, 1, 65_535)?;
    Some(port as u16)
}

fn port_in(found: &ArgMatches<'_>) -> Option<u16>
    ensures value { result ≡ port_in (rows_of (found_of found.now)) }
    ensures in_range { IfSome result (λ port. (1 ≤ port) × (port ≤ 65535)) }
{
    read_port(text_of(found, "port")?)
}

fn count_in(found: &ArgMatches<'_>) -> Option<u32>
    ensures value { result ≡ count_in (rows_of (found_of found.now)) }
    ensures in_range { IfSome result (λ count. (1 ≤ count) × (count ≤ 1000000)) }
{
    match text_of(found, "count") {
        Some(text) => read_from(text, 1, MOST_CONNECTIONS),
        None => Some(MOST_CONNECTIONS),
    }
}

/// The line `serve`, whose values are there.
pub(crate) fn serve<'a>(found: &ArgMatches<'a>) -> Result<Action<'a>, WordsFault>
    requires { IsLine (serve_in (rows_of (found_of found.now))) }
    ensures reads { ReadsLine (serve_in (rows_of (found_of found.now))) result }
    ensures in_range { IfOk result IsInRange }
{
    let Some(file) = text_of(found, "file") else {
        unreachable!()
    };
    let Some(port) = port_in(found) else {
        unreachable!()
    };
    let Some(count) = count_in(found) else {
        unreachable!()
    };
    Ok(Action::Serve { file, port, count })
}
