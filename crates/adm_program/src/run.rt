// What each line of the command line does, over a reader and writers.
ghost use Rattle.std.specs.Prelude.{◌≡◌, codes, IsTrue, IfOk, IfErr, OnErr, IsErrAnd};
ghost use Rattle.adm_host.specs.Exits.{has_many_holidays, IsCauseIn, IsOpenFault, RunsArguments, IsDisk};
ghost use Rattle.adm_host.specs.declared.fault.Fault.TheVariants.{TooManyHolidays};
ghost use Rattle.adm_http.specs.Connections.{errors_of};
ghost use Rattle.adm_program.specs.Does.{DoesAt, TakesByServing, file_of, shown};
ghost use Rattle.adm_program.specs.Logged.{Logs, LogsBy, PrintsConnections};
ghost use Rattle.adm_files.specs.Imports.{ImportsInto};
ghost use Rattle.adm_wire.specs.Streams.{writer};
ghost use Rattle.adm_program.specs.Given.{around, given, visits};
ghost use Rattle.adm_host.specs.Found.{LeavesAsFound};
ghost use Rattle.adm_program.specs.Served.{ServesOver};
ghost use Rattle.adm_files.specs.Runs.{Prints};
ghost use Rattle.adm_program.specs.Arguments.{ActsOn, ActsWith, texts};

use crate::serving::serve_connections;
use adm_files::{Registers, answer_questions, before_opening, do_lines, import, print};
use adm_host::{Document, Fault, LineEnd, OpenError, Remains, Rows, RunEnd, end, refuse_arguments};
use adm_http::Ports;
use adm_types::Season;
use adm_wire::{Input, Output};
use adm_words::{Action, action};
use sqlite_disk::Disk;
use std::alloc::Global;

/// Does what `run_arguments` does, and gives the exit status alone: what remains of the files is let go.
pub fn run_words<
    D: Disk + Drop,
    R: Registers<D>,
    F: Rows,
    P: Ports,
    I: Input,
    O: Output,
    E: Output,
    L: Output,
>(
    alloc: Global,
    arguments: &[&str],
    files: R,
    rows: &mut F,
    port: &mut P,
    input: &mut I,
    output: &mut O,
    errors: &mut E,
    log: &mut L,
) -> u8
    ensures does { ActsWith D.Disk (R.held files) arguments.entry.now
        (around F.Rows rows.old rows.new P.Ports port.old port.new
        I.Input input.old input.new O.Output output.old output.new E.Output errors.old errors.new) result }
    ensures status { RunsArguments (texts arguments.entry.now) result }
    ensures log { Logs (texts arguments.entry.now) (errors_of L.Output log.old) (errors_of L.Output log.new) }
{
    run_arguments(
        alloc, arguments, files, rows, port, input, output, errors, log,
    )
    .status
}

/// Does what the arguments say, with the program's name first, and gives what remains of the files and
/// the exit status: 0 done; 1 an error, printed to `errors` as `fault: ` and its name, before which the
/// row is named where a row of an import is invalid, and after which a second line names a cause of
/// Disk or Read that is known; 2 a usage error; 3 some line of `do` or `what-if` was refused, was no
/// command or question or ran out of memory, or the command of an import was refused or ran out of
/// memory; 4 the store failed. What goes wrong with single connections while `serve` runs is printed to
/// `log`, and nothing else is. `rows` opens the file that `import` reads, and `port` takes the port of
/// `serve`.
pub fn run_arguments<
    D: Disk + Drop,
    R: Registers<D>,
    F: Rows,
    P: Ports,
    I: Input,
    O: Output,
    E: Output,
    L: Output,
>(
    alloc: Global,
    arguments: &[&str],
    files: R,
    rows: &mut F,
    port: &mut P,
    input: &mut I,
    output: &mut O,
    errors: &mut E,
    log: &mut L,
) -> RunEnd<D>
    ensures does { ActsOn (R.held files) arguments.entry
        (around F.Rows rows.old rows.new P.Ports port.old port.new I.Input input.old input.new
        O.Output output.old output.new E.Output errors.old errors.new) L.Output log.old log.new result }
    ensures status { RunsArguments (texts arguments.entry.now) result.status }
    ensures log { Logs (texts arguments.entry.now) (errors_of L.Output log.old) (errors_of L.Output log.new) }
{
    match action(alloc, arguments) {
        Ok(action) => {
            let ended = run_action(alloc, action, files, rows, port, input, output, log);
            end(ended, errors)
        }
        Err(fault) => RunEnd {
            status: refuse_arguments(alloc, &fault, errors).code(),
            remains: Remains::Unopened(files.leave()),
        },
    }
}

/// Does what a line of the command line says. The `Err` is why there is no season of these
/// values, or why the file was not opened, with what remained of it; then nothing was read or
/// written.
fn run_action<D: Disk + Drop, R: Registers<D>, F: Rows, P: Ports, I: Input, O: Output, L: Output>(
    alloc: Global,
    action: Action<'_>,
    files: R,
    rows: &mut F,
    ports: &mut P,
    input: &mut I,
    output: &mut O,
    log: &mut L,
) -> Result<LineEnd<D>, OpenError<D>>
    ensures ok { IfOk result (λ e. DoesAt (R.held files) action.entry
        (given F.Rows rows.old rows.new P.Ports ports.old ports.new L.Output log.old log.new
        I.Input input.old input.new O.Output output.old output.new)
        e.exit e.closed) }
    ensures err { IfErr result (λ e. IsCauseIn action.entry e.fault) }
    ensures left { IfErr result (λ e. LeavesAsFound (R.held files (file_of action.entry)) e.remains) }
    ensures many { IsTrue (has_many_holidays action.entry) → IsErrAnd result (λ e. e.fault ≡ TooManyHolidays) }
    ensures untouched { OnErr result ((I.remaining input.new ≡ I.remaining input.old) × (O.contents output.new ≡ O.contents output.old)
        × (P.traffic ports.new ≡ P.traffic ports.old) × (errors_of L.Output log.new ≡ errors_of L.Output log.old)) }
    ensures taken { TakesByServing action.entry (visits P.Ports ports.old ports.new L.Output log.old log.new) }
    ensures log { LogsBy (Ok action.entry) (errors_of L.Output log.old) (errors_of L.Output log.new) }
{
    match action {
        Action::Init {
            file,
            phase,
            year,
            holidays,
            size,
        } => match Season::new(alloc, phase, year, holidays.as_slice()) {
            Ok(season) => {
                let sized = season.of_size(size);
                files.create(file, &sized)
            }
            Err(fault) => Err(before_opening(Fault::from(fault), files)),
        },
        Action::Do { file } => do_lines(files, file, input, output),
        Action::WhatIf { file } => answer_questions(files, file, input, output),
        Action::Import { file, csv } => import(alloc, files, file, csv, rows, output),
        Action::Serve { file, port, count } => {
            serve(alloc, files, file, ports, port, count, output, log)
        }
        Action::Letter { file, child } => {
            print(alloc, files, file, Document::Letter(child), output)
        }
        Action::List { file, school } => print(alloc, files, file, Document::List(school), output),
        Action::RoundReport { file, round } => {
            print(alloc, files, file, Document::Report(round), output)
        }
        Action::Pairs { file, school } => {
            print(alloc, files, file, Document::Pairs(school), output)
        }
        Action::Show { file, draw } => print(alloc, files, file, shown(draw), output),
    }
}

/// What `show` prints: the draw of a number, or the register where there is none.
fn shown(draw: Option<u32>) -> Document
    ensures { result ≡ shown draw }
{
    match draw {
        Some(number) => Document::Draw(number),
        None => Document::Register,
    }
}

/// Serves connections to a port over the register in the file, which is there. The `Err` is why it was
/// not opened; then nothing was written.
fn serve<D: Disk + Drop, R: Registers<D>, P: Ports, O: Output, L: Output>(
    alloc: Global,
    files: R,
    file: &str,
    ports: &mut P,
    port: u16,
    count: u32,
    output: &mut O,
    log: &mut L,
) -> Result<LineEnd<D>, OpenError<D>>
    ensures ok { IfOk result (λ ended. ServesOver (R.held files file.now) port count
        (visits P.Ports ports.old ports.new L.Output log.old log.new)
        (writer O.Output output.old output.new)
        ended.exit ended.closed) }
    ensures err { IfErr result (λ e. IsOpenFault e.fault) }
    ensures left { IfErr result (λ e. LeavesAsFound (R.held files file.now) e.remains) }
    ensures memory { file.now ≡ codes ":memory:" → IsErrAnd result (λ e. IsDisk e.fault) }
    ensures untouched { OnErr result ((O.contents output.new ≡ O.contents output.old) × (P.traffic ports.new ≡ P.traffic ports.old)
        × (errors_of L.Output log.new ≡ errors_of L.Output log.old)) }
    ensures log { PrintsConnections (errors_of L.Output log.old) (errors_of L.Output log.new) }
{
    match files.open(file)? {
        Ok(desk) => Ok(serve_connections(alloc, desk, ports, port, count, output, log)),
        Err(ended) => Ok(ended),
    }
}
