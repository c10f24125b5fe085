// A database over files of any disk. Each call gives the files back.
ghost use Rattle.std.specs.Prelude.{◌≡◌, false, IfOk};
ghost use Rattle.sqlite.specs.Files.{file_state};
ghost use Rattle.adm_rows.specs.Represents.{IsStarted};

use crate::disks::work::Work;
use sqlite::{Connection, FileStore, Files, Options};
use sqlite_disk::Disk;
use std::alloc::Global;

/// The number from which a log's salts are made.
const SEED: u64 = 7;

/// Opens the database. The files come back where a call of theirs fails.
fn connected<D: Disk + Drop>(
    alloc: Global,
    files: Files<D>,
) -> Result<Connection<FileStore<D>>, Files<D>>
    ensures ended { IfOk result (λ c. c.in_transaction ≡ false) }
    ensures started { IfOk result (λ c. IsStarted (file_state c)) }
{
    if !files.may_be_used() {
        return Err(files);
    }
    match Connection::open_files(alloc, files, Options::new(SEED)) {
        Ok(conn) => Ok(conn),
        Err((_, left)) => Err(left.into_files()),
    }
}

/// The files, as they are. No clause speaks of them.
fn closed<D: Disk + Drop>(conn: Connection<FileStore<D>>) -> Files<D> {
    conn.into_store().close()
}

/// Opens the database and does a work with it. `None`: it was not opened.
pub(crate) fn done<D: Disk + Drop, W: Work>(
    alloc: Global,
    files: Files<D>,
    work: &W,
) -> (Option<W::Came>, Files<D>) {
    match connected(alloc, files) {
        Err(files) => (None, files),
        Ok(conn) => {
            let (came, conn) = work.over(alloc, conn);
            (Some(came), closed(conn))
        }
    }
}
