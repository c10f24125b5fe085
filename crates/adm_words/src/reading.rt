// The reader of the arguments: clap accepts or refuses them, and the line is read from what it found.
ghost use Rattle.std.specs.Prelude.{map, IfOk};
ghost use Rattle.adm_words.specs.Lines.{IsInRange, ReadsArguments};

use crate::command::program;
use crate::lines::read_line;
use crate::{Action, WordsFault};
use clap::error::ErrorKind;
use std::alloc::Global;

/// The action that the arguments name, with the program's name first.
///
/// The arguments are those of a line `init FILE PHASE YEAR [HOLIDAY...] [--large]`, with PHASE
/// `primary` or `secondary` and YEAR from 2000 to 2100, of a line `serve FILE PORT [--count N]`,
/// with PORT from 1 to 65535 and N from 1 to 1,000,000, or 1,000,000 where it is omitted, or of a
/// line `do FILE`, `what-if FILE`, `import FILE CSV`, `letter FILE CHILD`, `list FILE SCHOOL`,
/// `round-report FILE ROUND`, `pairs FILE [SCHOOL]` or `show FILE [--draw N]`, as `clap` reads
/// arguments. The error is Usage where `clap` refuses them, a request for help included; BadDate
/// where a HOLIDAY is no day YYYY-MM-DD from 1990-01-01 to 2110-12-31; BadWord where CHILD is no
/// plain number from 1 to 9,999,999, ROUND or the N of `show` no plain number or SCHOOL no code.
/// The cost grows with the length of the arguments.
pub fn action<'a>(alloc: Global, arguments: &'a [&'a str]) -> Result<Action<'a>, WordsFault>
    ensures reads { ReadsArguments (map (λ w. w.now) arguments.entry.now) result }
    ensures in_range { IfOk result IsInRange }
{
    let command = program(alloc)?;
    match command.try_get_matches_from(arguments) {
        Ok(matches) => match matches.subcommand() {
            Some((name, found)) => read_line(alloc, name, found),
            None => unreachable!(),
        },
        Err(error) => match error.kind() {
            ErrorKind::OutOfMemory => Err(WordsFault::Memory),
            _ => Err(WordsFault::Usage(error)),
        },
    }
}
