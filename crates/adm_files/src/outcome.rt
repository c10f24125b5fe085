// How a line of the command line ends, by what the desk answered.
ghost use Rattle.std.specs.Prelude.{◌≡◌};
ghost use Rattle.adm_files.specs.Outcomes.{exit_of, exit_of_answer, of_run};

use adm_desk::{Answer, Run, RunFault};
use adm_host::{Exit, Fault};

/// The exit of a run of lines.
pub fn exit_of(run: Run) -> Exit
    ensures { result ≡ exit_of run }
{
    if run.failed {
        Exit::Failed
    } else if run.refused > 0 {
        Exit::Refused
    } else {
        Exit::Done
    }
}

/// The exit of one answer.
pub fn exit_of_answer(answer: Answer) -> Exit
    ensures { result ≡ exit_of_answer answer }
{
    match answer {
        Answer::Done(_) => Exit::Done,
        Answer::Refused { .. } | Answer::Memory => Exit::Refused,
        Answer::Failed => Exit::Failed,
    }
}

/// The error of a run of lines that failed.
pub fn fault_of_run(fault: RunFault) -> Fault
    ensures { result ≡ of_run fault }
{
    match fault {
        RunFault::Read => Fault::Read,
        RunFault::Write => Fault::Write,
        RunFault::Memory => Fault::Memory,
    }
}
