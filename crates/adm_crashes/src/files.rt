// The two files of a register: how a desk is opened over them, and how they are closed.
ghost use Rattle.std.specs.Prelude.{◌≡◌, false, IsTrue, Option, IfOk, IfErr};
ghost use Rattle.sqlite_wal.specs.Reads.{AreClean};
ghost use Rattle.sqlite.specs.Files.{file_state, image_of, IsCleanLeft, IsClosed};
ghost use Rattle.sqlite.specs.State.{HasCleanDisk};
ghost use Rattle.adm_types.specs.declared.commands.Command.{Command as Asked};
ghost use Rattle.adm_register.specs.State.{State as Register};
ghost use Rattle.adm_rows.specs.Faults.{IsNoRegister};
ghost use Rattle.adm_rows.specs.Represents.{LeavesOnly};
ghost use Rattle.adm_desk.specs.Acknowledged.{LeavesAcknowledged};
ghost use Rattle.adm_desk.specs.Files.{IsFileOf};
ghost use Rattle.adm_crashes.specs.Crashes.{AreDisksOf, AreDisksAfter, StillRepresents};

use crate::restart::connection_fault;
use adm_desk::Desk;
use adm_rows::{OpenFault, one_register};
use sqlite::{Connection, Error, FileStore, Files, Leftover, Options};
use sqlite_disk::Disk;
use std::alloc::Global;

/// The number from which a log's salts are made.
const SEED: u64 = 7;

/// Starts a store over two files and opens their register. Where that fails, what remains of the
/// files. What it costs grows with the rows of the register.
pub fn open_files<D: Disk + Drop>(
    alloc: Global,
    files: Files<D>,
) -> Result<Desk<FileStore<D>>, (OpenFault, Leftover<D>)>
    requires log { IsTrue (D.Disk.is_usable files.log) }
    requires db { IsTrue (D.Disk.is_usable files.db) }
    ensures alive { IfOk result (λ desk. (desk.failed ≡ false) × LeavesOnly desk.register (file_state desk.conn)) }

    // On a clean disk: where the files are those of a register, it is this one, and the error is not NotOurs, Version or BadRow.
    ensures register { (r : Register) → IsFileOf r (image_of D.Disk files) → IfOk result (λ desk. HasCleanDisk (file_state desk.conn) → desk.register ≡ r) }
    ensures never { (r : Register) → IsFileOf r (image_of D.Disk files) → IfErr result (λ e. IsCleanLeft e.1 → ¬ IsNoRegister e.0) }

    // Where it fails, what a crash may leave represents the register still.
    ensures left { (r : Register) → AreDisksOf D.Disk r files.log files.db → IfErr result (λ e. IsCleanLeft e.1 → StillRepresents r e.1) }
{
    let conn = match Connection::open_files(alloc, files, Options::new(SEED)) {
        Ok(conn) => conn,
        Err((error, left)) => return Err((connection_fault(error), left)),
    };
    // a call of the law says that a file represents one register
    one_register();
    match Desk::open(alloc, conn) {
        Ok(desk) => Ok(desk),
        Err((fault, conn)) => Err((fault, Leftover::Store(conn.into_store()))),
    }
}

/// Closes the files of a register that was created or opened, so that the log is copied into the
/// database. Where that fails, the store that remains.
pub fn close_files<D: Disk + Drop>(
    conn: Connection<FileStore<D>>,
) -> Result<Files<D>, (Error, FileStore<D>)>
    // On a clean disk: they are disks of the register that the connection left, or of one that the command in flight leaves.
    ensures disks { (r : Register) (work : Option Asked) → LeavesAcknowledged r work (file_state conn)
        → IfOk result (λ files. AreClean D.Disk files.log files.db → AreDisksAfter D.Disk r work files.log files.db) }
    ensures usable { IfOk result (λ files. IsTrue (D.Disk.is_usable files.log) × IsTrue (D.Disk.is_usable files.db)) }
    // Where it fails, a crash leaves no more than before the close.
    ensures left { IfErr result (λ e. IsClosed conn e.1) }
{
    conn.close_files()
}
