// What is printed of an error on the standard error, and the exit that goes with it.
ghost use Rattle.std.specs.Prelude.{◌≡◌};
ghost use Rattle.adm_host.specs.Exits.{exit_code, exit_of_arguments, line_outcome, fault_line, exit_of_result, remains_at_end};
ghost use Rattle.adm_wire.specs.Streams.{writer};
ghost use Rattle.adm_host.specs.Reports.{ReportsText, ReportsOutcome, ReportsArguments, PrintsArguments};
ghost use Rattle.adm_host.specs.declared.fault.Fault.TheVariants.{Memory};

use crate::connecting::OpenError;
use crate::ended::{LineEnd, Remains, RunEnd, ending};
use crate::exit::Exit;
use crate::fault::{Fault, print_text};
use adm_wire::{Output, WriteFailed};
use adm_words::{WordsFault, fault_text};
use sqlite_disk::Disk;
use std::alloc::Global;

/// Prints `fault: Memory` and LF, and gives the exit status 1: for a caller that has no memory for
/// the arguments. It takes none. A print that fails is ignored.
pub fn print_memory_fault<E: Output>(errors: &mut E) -> u8
    ensures status { result ≡ 1 }
    ensures reported { ReportsText (fault_line Memory) (writer E.Output errors.old errors.new) }
{
    print_fault(Err(Fault::Memory), errors).code()
}

/// The end of a line, whose error is printed: the exit status, and what remains of the files, as it was
/// handed in.
pub fn end<D: Disk, E: Output>(ended: Result<LineEnd<D>, OpenError<D>>, errors: &mut E) -> RunEnd<D>
    ensures status { result.status ≡ exit_code (exit_of_result (line_outcome ended)) }
    ensures remains { result.remains ≡ remains_at_end ended }
    ensures reported { ReportsOutcome (line_outcome ended) (writer E.Output errors.old errors.new) }
{
    match ended {
        Ok(LineEnd { exit, closed }) => RunEnd {
            status: print_fault(ending(exit, &closed), errors).code(),
            remains: Remains::Closed(closed),
        },
        Err(error) => RunEnd {
            status: print_fault(Err(error.fault), errors).code(),
            remains: Remains::Unopened(error.into_remains()),
        },
    }
}

/// Prints an error. Where that fails, it is ignored.
fn print_fault<E: Output>(ended: Result<Exit, Fault>, errors: &mut E) -> Exit
    ensures exit { result ≡ exit_of_result ended }
    ensures reported { ReportsOutcome ended (writer E.Output errors.old errors.new) }
{
    match ended {
        Ok(exit) => exit,
        Err(fault) => {
            let _ = fault.print(errors);
            Exit::Fault
        }
    }
}

/// Prints what is wrong with the arguments, or the help that they request, and gives the exit. A
/// print that fails is ignored.
pub fn refuse_arguments<E: Output>(alloc: Global, fault: &WordsFault, errors: &mut E) -> Exit
    ensures exit { result ≡ exit_of_arguments fault.now }
    ensures reported { ReportsArguments fault.now (writer E.Output errors.old errors.new) }
{
    let _ = print_arguments_fault(alloc, fault, errors);
    Exit::of_arguments(fault)
}

/// Prints what is wrong with the arguments. It takes memory for the text of `clap` alone; where
/// there is none, or where `clap` had none for its text, which is then empty, that is printed.
fn print_arguments_fault<E: Output>(
    alloc: Global,
    fault: &WordsFault,
    errors: &mut E,
) -> Result<(), WriteFailed>
    ensures { PrintsArguments fault.now (writer E.Output errors.old errors.new) result }
{
    match fault {
        WordsFault::Usage(_) => match fault_text(alloc, fault) {
            Ok(text) if !text.is_empty() => print_text(text.as_str(), errors),
            Ok(_) | Err(_) => Fault::Memory.print(errors),
        },
        WordsFault::BadDate => print_text("fault: BadDate\n", errors),
        WordsFault::BadWord => print_text("fault: BadWord\n", errors),
        WordsFault::Memory => Fault::Memory.print(errors),
    }
}
