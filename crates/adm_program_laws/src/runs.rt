// The laws of runs of the program, one after another.
ghost use Rattle.adm_program_laws.specs.NextRun.{GoesOnAfterCrash, GoesOnAfterClose};
ghost use Rattle.adm_program_laws.specs.SuccessiveRuns.{InitMakesFile, OneMoreRun, AllRuns, PlacesAfterRuns, OpensAfterRuns, NeverNoRegister};

use adm_command_laws::{draws_kept, places_have_cause};
use adm_crashes::rounds_are_recorded;
use adm_desk::Desk;
use adm_rows::one_register;
use sqlite::FileStore;
use sqlite_disk::Disk;

/// Ends a run by a crash: nothing is copied from the log, and this is the store as it lies on the
/// two disks. Of it the contract says what a next run finds, over any files that hold what a crash
/// may leave of these: the register after the acknowledged commands, or also one that the command
/// in flight leaves, and never that there is none. The contract says the same of a run that closed
/// its files.
pub fn next_run<D: Disk + Drop, E: Disk + Drop>(desk: Desk<FileStore<D>>) -> FileStore<D>
    ensures crashed { GoesOnAfterCrash E.Disk desk.conn result }
    ensures closed { GoesOnAfterClose E.Disk desk.conn }
{
    // a call of the law says that a file represents one register
    one_register();
    desk.into_connection().into_store()
}

/// Any number of runs of the program over the same two files, each of which ended, or was crashed
/// once it had opened the files: they hold the register to which the recorded commands of all runs
/// lead, in order, with at most the one in flight of each run. A command is recorded once the desk has
/// answered it Done, and acknowledged once this answer was written whole; so each acknowledged command
/// is in that register. It has the outcomes of each of their rounds, and each draw; each place has a
/// cause. This follows from what `run_arguments` states of each run, on disks of any kind, so also on
/// ones that fail from some call on, which are the model of a crash. `run` adds one run, so that each
/// may be over disks of a kind of its own, and `runs` any number. This is a law and no step of the
/// program: when it is called, nothing is done.
pub fn runs_in_order<D: Disk + Drop>()
    ensures init { InitMakesFile D.Disk }
    ensures run { OneMoreRun D.Disk }
    ensures runs { AllRuns D.Disk }
    ensures places { PlacesAfterRuns }
    ensures opened { OpensAfterRuns D.Disk }
    ensures never { NeverNoRegister D.Disk }
{
    // that a file represents one register, and what commands leave of rounds, draws and places, calls
    // of the laws say
    one_register();
    draws_kept();
    rounds_are_recorded();
    places_have_cause();
}
