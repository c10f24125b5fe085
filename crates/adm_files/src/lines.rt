// The lines of an input answered over the register in a file: commands, and questions.
ghost use Rattle.std.specs.Prelude.{◌≡◌, codes, IfOk, IfErr, OnErr, IsErrAnd};
ghost use Rattle.sqlite.specs.Files.{file_state};
ghost use Rattle.adm_desk.specs.Lines.{AnswersLine};
ghost use Rattle.adm_desk.specs.Questions.{AnswersQuestionLine};
ghost use Rattle.adm_desk.specs.DeskState.{Handles};
ghost use Rattle.adm_host.specs.Exits.{IsOpenFault, IsDisk};
ghost use Rattle.adm_wire.specs.Streams.{reader, writer};
ghost use Rattle.adm_host.specs.Found.{LeavesAsFound};
ghost use Rattle.adm_files.specs.Runs.{OpensAndRuns, Runs};

use crate::closing::close;
use crate::outcome::{exit_of, fault_of_run};
use crate::registers::Registers;
use adm_desk::Desk;
use adm_host::{LineEnd, OpenError};
use adm_wire::{Input, Output};
use sqlite::FileStore;
use sqlite_disk::Disk;

/// Answers the lines of the input over the register in the file, which is there: an open makes no
/// file here. The `Err` is why it was not opened; then nothing was read or written.
pub fn do_lines<D: Disk + Drop, R: Registers<D>, I: Input, O: Output>(
    registers: R,
    file: &str,
    input: &mut I,
    output: &mut O,
) -> Result<LineEnd<D>, OpenError<D>>
    ensures ok { IfOk result (λ ended. OpensAndRuns (AnswersLine (Handles file_state)) (R.held registers file.now)
        (reader I.Input input.old input.new)
        (writer O.Output output.old output.new)
        ended.exit ended.closed) }
    ensures err { IfErr result (λ e. IsOpenFault e.fault) }
    ensures left { IfErr result (λ e. LeavesAsFound (R.held registers file.now) e.remains) }
    ensures memory { file.now ≡ codes ":memory:" → IsErrAnd result (λ e. IsDisk e.fault) }
    ensures untouched { OnErr result ((I.remaining input.new ≡ I.remaining input.old) × (O.contents output.new ≡ O.contents output.old)) }
{
    match registers.open(file)? {
        Ok(desk) => Ok(run_desk(desk, input, output)),
        Err(ended) => Ok(ended),
    }
}

/// Answers the lines of the input, and closes the connection, whatever comes.
fn run_desk<D: Disk + Drop, I: Input, O: Output>(
    mut desk: Desk<FileStore<D>>,
    input: &mut I,
    output: &mut O,
) -> LineEnd<D>
    ensures { Runs (AnswersLine (Handles file_state)) desk
        (reader I.Input input.old input.new)
        (writer O.Output output.old output.new)
        result.exit result.closed }
{
    match desk.run_lines(input, output) {
        Ok(run) => close(desk, Ok(exit_of(run))),
        Err(fault) => close(desk, Err(fault_of_run(fault))),
    }
}

/// Answers the questions of the input over the register in the file, which is there: an open makes no
/// file here. The `Err` is why it was not opened; then nothing was read or written.
pub fn answer_questions<D: Disk + Drop, R: Registers<D>, I: Input, O: Output>(
    registers: R,
    file: &str,
    input: &mut I,
    output: &mut O,
) -> Result<LineEnd<D>, OpenError<D>>
    ensures ok { IfOk result (λ ended. OpensAndRuns AnswersQuestionLine (R.held registers file.now)
        (reader I.Input input.old input.new)
        (writer O.Output output.old output.new)
        ended.exit ended.closed) }
    ensures err { IfErr result (λ e. IsOpenFault e.fault) }
    ensures left { IfErr result (λ e. LeavesAsFound (R.held registers file.now) e.remains) }
    ensures memory { file.now ≡ codes ":memory:" → IsErrAnd result (λ e. IsDisk e.fault) }
    ensures untouched { OnErr result ((I.remaining input.new ≡ I.remaining input.old) × (O.contents output.new ≡ O.contents output.old)) }
{
    match registers.open(file)? {
        Ok(desk) => Ok(run_questions(desk, input, output)),
        Err(ended) => Ok(ended),
    }
}

/// Answers the questions of the input, and closes the connection, whatever comes.
fn run_questions<D: Disk + Drop, I: Input, O: Output>(
    desk: Desk<FileStore<D>>,
    input: &mut I,
    output: &mut O,
) -> LineEnd<D>
    ensures { Runs AnswersQuestionLine desk
        (reader I.Input input.old input.new)
        (writer O.Output output.old output.new)
        result.exit result.closed }
{
    match desk.answer_questions(input, output) {
        Ok(run) => close(desk, Ok(exit_of(run))),
        Err(fault) => close(desk, Err(fault_of_run(fault))),
    }
}
