// A call of the program, over the files that the runs before it left.
ghost use Rattle.adm_program.specs.Given.{around};
ghost use Rattle.adm_program_laws.specs.OneRun.{AddsRun, Begins, Recalls};

use crate::birth::first_runs;
use crate::found_again::answered_is_found;
use crate::runs::runs_in_order;
use adm_files::Registers;
use adm_host::{Rows, RunEnd};
use adm_http::Ports;
use adm_program::run_arguments;
use adm_wire::{Input, Output};
use sqlite_disk::Disk;
use std::alloc::Global;

/// Runs the program, as `run_arguments` does, over the file that its arguments name: it holds the
/// register after some runs, or none before `init`. To its end or to a crash, it holds the one after this run
/// too, which has the commands that it answered, among them each that `serve` answered with the status 200.
pub fn run_once_more<
    D: Disk + Drop,
    R: Registers<D>,
    F: Rows,
    P: Ports,
    I: Input,
    O: Output,
    E: Output,
    L: Output,
>(
    alloc: Global,
    arguments: &[&str],
    files: R,
    rows: &mut F,
    port: &mut P,
    input: &mut I,
    output: &mut O,
    errors: &mut E,
    log: &mut L,
) -> RunEnd<D>
    ensures kept { AddsRun (R.held files) arguments.entry
        (around F.Rows rows.old rows.new P.Ports port.old port.new I.Input input.old input.new
        O.Output output.old output.new E.Output errors.old errors.new) L.Output log.old log.new result }
    ensures first { Begins (R.held files) arguments.entry
        (around F.Rows rows.old rows.new P.Ports port.old port.new I.Input input.old input.new
        O.Output output.old output.new E.Output errors.old errors.new) L.Output log.old log.new result }
    ensures found { Recalls (R.held files) arguments.entry
        (around F.Rows rows.old rows.new P.Ports port.old port.new I.Input input.old input.new
        O.Output output.old output.new E.Output errors.old errors.new) L.Output log.old log.new result }
{
    // what the clauses of one run make of the files, calls of the laws say
    runs_in_order::<D>();
    first_runs::<D>();
    answered_is_found::<D>();
    run_arguments(
        alloc, arguments, files, rows, port, input, output, errors, log,
    )
}
