// A run of commands over the two files of a register, a crash, and the start after it.
ghost use Rattle.std.specs.Prelude.{◌≡◌, false, IsTrue, IfOk, IfErr, zip};
ghost use Rattle.sqlite_trees.specs.View.{IsClean, IsQuiet};
ghost use Rattle.sqlite_store.specs.FileStore.{view, faults, recovers, is_shielded};
ghost use Rattle.sqlite.specs.Files.{file_state, image_of};
ghost use Rattle.sqlite.specs.Held.{AreDatabases};
ghost use Rattle.adm_commands.specs.History.{DrawsInOrder};
ghost use Rattle.adm_register.specs.State.{State as Register};
ghost use Rattle.adm_rows.specs.Represents.{LeavesOnly};
ghost use Rattle.adm_desk.specs.Files.{IsFileOf};
ghost use Rattle.adm_crashes.specs.Crashes.{IsAnsweredFrom, IsCleanStart, IsRestartOf, IsUnhandled, KeepsEachDatabase, KeepsEveryImage};

use crate::restart::restart;
use crate::{CrashOutcome, handle_all, open_files, rounds_are_recorded, rounds_stay};
use adm_command_laws::{draws_kept, round_is_recorded};
use adm_desk::{Answer, Desk};
use adm_rows::OpenFault;
use adm_types::Command;
use sqlite::{Alter, FileStore, Files, Leftover};
use sqlite_disk::{Crash, Disk};
use std::alloc::Global;

/// A run of commands: the answer to each, and the store as it is on its two disks, with what was not
/// committed rolled back.
#[derive(Drop)]
pub struct CommandRun<D: Disk> {
    pub answers: Vec<Answer>,
    pub store: FileStore<D>,
}

/// Why no command was handled, and what remains of the two files.
#[derive(Drop)]
pub enum NotHandled<D: Disk> {
    /// The register was not opened.
    NotOpened(OpenFault, Leftover<D>),
    /// There was no room for the answers.
    NoRoom(FileStore<D>),
}

/// States that the draws of the desk's register are in order. It does nothing.
fn has_draws_in_order<S: Alter + Drop>(desk: &Desk<S>)
    ensures { desk.now.failed ≡ false → DrawsInOrder desk.now.register }
{
    match desk.register() {
        // Read only so that the check sees that the register is well formed.
        Some(register) => {
            let _season = register.season();
        }
        None => {}
    }
}

/// The store of the desk, as it is on its two disks, with what was not committed rolled back. Each
/// function that calls a method of a desk over files is proved with all methods of their store, so
/// this one call serves both ends of `run_commands`.
fn store_of<D: Disk + Drop>(desk: Desk<FileStore<D>>) -> FileStore<D>
    ensures numbered { IsClean (view result) → IsTrue (view result).is_numbered }
    ensures sound { IsClean (view result) → AreDatabases (recovers result) }
    ensures quiet { IsQuiet view faults recovers is_shielded desk.conn.store result }
{
    desk.into_connection().into_store()
}

/// Opens the register in two files, answers the commands, and gives back the answers and the store, as
/// it is on the two disks then. It is so over any disks, so also over two that each pass so many calls
/// and then fail (`Fuse`): how many, the caller alone says.
///
/// It takes memory for the register and for an answer to each command. What it costs grows with the
/// rows of the register and with what the commands change.
pub fn run_commands<D: Disk + Drop>(
    alloc: Global,
    files: Files<D>,
    commands: Vec<Command>,
) -> Result<CommandRun<D>, NotHandled<D>>
    requires log { IsTrue (D.Disk.is_usable files.log) }
    requires db { IsTrue (D.Disk.is_usable files.db) }
    // On clean disks of a register: whatever two files a crash may leave are those of a register that may be found after the commands.
    ensures keeps { (r : Register) → IsFileOf r (image_of D.Disk files)
        → IfOk result (λ run. IsClean (view run.store) → KeepsEveryImage r (zip commands.items run.answers.items) run.store) }
    ensures answers { IfOk result (λ run. IsAnsweredFrom D.Disk files (IsClean (view run.store)) commands.items run.answers.items) }
    ensures unhandled { (r : Register) → IsFileOf r (image_of D.Disk files) → IfErr result (λ e. IsUnhandled r files e) }
    // For a start that takes the store over: the same of each database that it may find.
    ensures databases { (r : Register) → IsFileOf r (image_of D.Disk files)
        → IfOk result (λ run. IsClean (view run.store) → KeepsEachDatabase r (zip commands.items run.answers.items) (recovers run.store)) }
    ensures numbered { IfOk result (λ run. IsClean (view run.store) → IsTrue (view run.store).is_numbered) }
{
    let mut desk = match open_files(alloc, files) {
        Ok(desk) => desk,
        Err((fault, left)) => return Err(NotHandled::NotOpened(fault, left)),
    };
    // that its draws are in order, and what rounds leave, calls say
    has_draws_in_order(&desk);
    rounds_are_recorded();
    rounds_stay();
    round_is_recorded();
    draws_kept();
    match handle_all(alloc, &mut desk, commands) {
        Ok(answers) => {
            let store = store_of(desk);
            Ok(CommandRun { answers, store })
        }
        Err(_) => Err(NotHandled::NoRoom(store_of(desk))),
    }
}

/// Runs the commands as `run_commands`. Then a crash comes, the disks answer again, and the store is
/// started and opened once more. Where no command was handled, there is no crash.
pub fn run_until_crash<D: Crash + Drop>(
    alloc: Global,
    files: Files<D>,
    commands: Vec<Command>,
) -> Result<CrashOutcome<FileStore<D>>, NotHandled<D>>
    requires log { IsTrue (D.Disk.is_usable files.log) }
    requires db { IsTrue (D.Disk.is_usable files.db) }
    // Over files of a register: the one that is found may be found after the commands. No start reports NotOurs, Version or BadRow.
    ensures restarts { (r : Register) → IsFileOf r (image_of D.Disk files) → IfOk result (λ it. IsRestartOf r (zip commands.items it.answers.items) it.opened) }
    ensures answers { IfOk result (λ it. IsAnsweredFrom D.Disk files (IsCleanStart it.opened) commands.items it.answers.items) }
    ensures alive { IfOk result (λ it. IfOk it.opened (λ new. (new.failed ≡ false) × LeavesOnly new.register (file_state new.conn))) }
    ensures unhandled { (r : Register) → IsFileOf r (image_of D.Disk files) → IfErr result (λ e. IsUnhandled r files e) }
{
    let CommandRun { answers, store } = run_commands(alloc, files, commands)?;
    let opened = restart(alloc, store);
    Ok(CrashOutcome { answers, opened })
}
