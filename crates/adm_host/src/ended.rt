// How a line of the command line ended, and what remains of the files.
ghost use Rattle.std.specs.Prelude.{◌≡◌};
ghost use Rattle.adm_host.specs.Exits.{ending_of, error_of};
ghost use Rattle.adm_host.specs.Found.{Closes};

use crate::connecting::Remainder;
use crate::exit::Exit;
use crate::fault::Fault;
use sqlite::{Connection, Error, FileStore, Files};
use sqlite_disk::Disk;

/// What a connection's close gives: the files, or why it failed and the store that remains.
pub type CloseResult<D> = Result<Files<D>, (Error, FileStore<D>)>;

/// How a line ended, and what the close of its connection left.
pub struct LineEnd<D: Disk> {
    pub exit: Result<Exit, Fault>,
    pub closed: CloseResult<D>,
}

/// What remains of the files at the end of a run.
pub enum Remains<D: Disk> {
    /// Their connection was closed: what that gave.
    Closed(CloseResult<D>),
    /// They were not opened as a register.
    Unopened(Remainder<D>),
}

/// How a run of the program ended: its exit status, and what remains of the files.
pub struct RunEnd<D: Disk> {
    pub status: u8,
    pub remains: Remains<D>,
}

impl<D: Disk + Drop> Drop for Remains<D> {
    fn drop(self) {
        match self {
            Remains::Closed(_closed) => {}
            Remains::Unopened(_left) => {}
        }
    }
}

impl<D: Disk + Drop> Drop for RunEnd<D> {
    fn drop(self) {
        let RunEnd {
            status: _,
            remains: _,
        } = self;
    }
}

/// Closes a connection. What closes one is proved with all methods of its store, so this one call serves
/// all.
pub fn close_files<D: Disk + Drop>(conn: Connection<FileStore<D>>) -> CloseResult<D>
    ensures { Closes conn result }
{
    conn.close_files()
}

/// How the line as a whole ended: an error before all else, and a close that failed is one, but not
/// after Failed.
pub fn ending<D: Disk>(exit: Result<Exit, Fault>, closed: &CloseResult<D>) -> Result<Exit, Fault>
    ensures { result ≡ ending_of exit (error_of closed.now) }
{
    match exit? {
        Exit::Failed => Ok(Exit::Failed),
        exit => match closed {
            Ok(_files) => Ok(exit),
            Err((error, _store)) => Err(Fault::from(*error)),
        },
    }
}

/// How the line ended before its close, whatever that gave.
pub fn before_close<D: Disk + Drop>(ended: LineEnd<D>) -> Result<Exit, Fault>
    ensures { result ≡ ended.exit }
{
    let LineEnd {
        exit,
        closed: _closed,
    } = ended;
    exit
}
