// How the connection of a desk is closed.
ghost use Rattle.std.specs.Prelude.{◌≡◌, false};
ghost use Rattle.adm_host.specs.Found.{Closes};

use adm_desk::Desk;
use adm_host::{Exit, Fault, LineEnd, close_files};
use sqlite::{Connection, FileStore};
use sqlite_disk::Disk;

/// The desk's connection. What calls a method of a desk or a connection over files is proved with all
/// methods of their store, so this one call serves all.
pub fn connection_of<D: Disk + Drop>(desk: Desk<FileStore<D>>) -> Connection<FileStore<D>>
    ensures same { result ≡ desk.conn }
    ensures ended { result.in_transaction ≡ false }
{
    desk.into_connection()
}

/// Closes the desk's connection, after a line that ended so.
pub fn close<D: Disk + Drop>(desk: Desk<FileStore<D>>, exit: Result<Exit, Fault>) -> LineEnd<D>
    ensures exit { result.exit ≡ exit }
    ensures closes { Closes desk.conn result.closed }
{
    LineEnd {
        exit,
        closed: close_files(connection_of(desk)),
    }
}
