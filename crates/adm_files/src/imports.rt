// The rows of a file of comma-separated values, imported into a register.
ghost use Rattle.std.specs.Prelude.{◌≡◌, ◌++◌, [], ◌∷◌, codes, IfOk, IfErr, OnErr, IsErrAnd};
ghost use Rattle.sqlite.specs.Held.{state};
ghost use Rattle.adm_desk.specs.Lines.{answer_text};
ghost use Rattle.adm_host.specs.Exits.{IsOpenFault, IsDisk};
ghost use Rattle.adm_files.specs.Imports.{files, IsHandled, Imports, ImportsFile, ImportsInto};
ghost use Rattle.adm_wire.specs.Streams.{reader, writer};
ghost use Rattle.adm_host.specs.Found.{LeavesAsFound};
ghost use Rattle.adm_host.specs.Texts.{Puts};

use crate::closing::close;
use crate::outcome::exit_of_answer;
use crate::registers::Registers;
use adm_csv::read_rows;
use adm_desk::{Answer, Desk};
use adm_host::{Exit, Fault, LineEnd, OpenError, Rows, put};
use adm_types::{Command, Row as ImportRow, Seq};
use adm_wire::{Input, Output};
use sqlite::{Alter, FileStore};
use sqlite_disk::Disk;
use std::alloc::Global;

/// Writes an answer as a line. The `Err` is Write, or Memory where memory ran out before.
fn put_answer<O: Output>(alloc: Global, output: &mut O, answer: &Answer) -> Result<(), Fault>
    ensures { Puts (answer_text answer.now ++ 10 ∷ [])
        (writer O.Output output.old output.new) result }
{
    let Ok(mut text) = answer.text(alloc) else {
        return Err(Fault::Memory);
    };
    if text.push_str("\n").is_err() {
        return Err(Fault::Memory);
    }
    put(output, text.as_str())
}

/// Hands the rows to the desk as one command, and writes its answer.
fn handle_rows<S: Alter, O: Output>(
    alloc: Global,
    desk: &mut Desk<S>,
    rows: Vec<ImportRow>,
    output: &mut O,
) -> Result<Exit, Fault>
    ensures { IsHandled (state S.Store) desk.old desk.new rows.items
        (writer O.Output output.old output.new) result }
{
    let answer = desk.handle(Command::Import(Seq::from_vec(rows)));
    put_answer(alloc, output, &answer)?;
    Ok(exit_of_answer(answer))
}

/// Imports the rows that the reader gives, and closes the connection, whatever comes.
fn import_rows<D: Disk + Drop, I: Input, O: Output>(
    alloc: Global,
    mut desk: Desk<FileStore<D>>,
    rows: &mut I,
    output: &mut O,
) -> LineEnd<D>
    ensures { Imports desk
        (reader I.Input rows.old rows.new)
        (writer O.Output output.old output.new)
        result.exit result.closed }
{
    match read_rows(alloc, rows) {
        Ok(rows) => {
            let exit = handle_rows(alloc, &mut desk, rows, output);
            close(desk, exit)
        }
        Err(fault) => close(desk, Err(Fault::Row(fault))),
    }
}

/// Imports the rows of the file, and closes the connection, whatever comes.
fn import_file<D: Disk + Drop, F: Rows, O: Output>(
    alloc: Global,
    desk: Desk<FileStore<D>>,
    csv: &str,
    rows: &mut F,
    output: &mut O,
) -> LineEnd<D>
    ensures { ImportsFile desk (files F.Rows rows.old rows.new csv.now) (writer O.Output output.old output.new)
        result.exit result.closed }
{
    match rows.open(csv) {
        Ok(()) => import_rows(alloc, desk, rows, output),
        Err(error) => close(desk, Err(Fault::NotRead(error.cause))),
    }
}

/// Imports the rows of the file `csv` into the register in the file, which is there. The `Err` is why
/// it was not opened; then nothing was written.
pub fn import<D: Disk + Drop, R: Registers<D>, F: Rows, O: Output>(
    alloc: Global,
    registers: R,
    file: &str,
    csv: &str,
    rows: &mut F,
    output: &mut O,
) -> Result<LineEnd<D>, OpenError<D>>
    ensures ok { IfOk result (λ ended. ImportsInto (R.held registers file.now) (files F.Rows rows.old rows.new csv.now)
        (writer O.Output output.old output.new)
        ended.exit ended.closed) }
    ensures err { IfErr result (λ e. IsOpenFault e.fault) }
    ensures left { IfErr result (λ e. LeavesAsFound (R.held registers file.now) e.remains) }
    ensures memory { file.now ≡ codes ":memory:" → IsErrAnd result (λ e. IsDisk e.fault) }
    ensures untouched { OnErr result (O.contents output.new ≡ O.contents output.old) }
{
    match registers.open(file)? {
        Ok(desk) => Ok(import_file(alloc, desk, csv, rows, output)),
        Err(ended) => Ok(ended),
    }
}
