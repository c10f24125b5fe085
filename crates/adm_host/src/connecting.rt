// How a connection to a file is made, and what remained of the file where none was.
ghost use Rattle.std.specs.Prelude.{◌≡◌, Some, None, true, false, codes, IfOk, IfErr, IsErrAnd, IfSome};
ghost use Rattle.sqlite_wal.specs.Files.{image_at};
ghost use Rattle.sqlite.specs.Files.{file_state, IsCleanLeft, LeavesFiles};
ghost use Rattle.sqlite_std_file.specs.File.{IsFresh};
ghost use Rattle.sqlite.specs.declared.error.Error.TheVariants.{SqliteFailure};
ghost use Rattle.sqlite.specs.declared.error.ErrorCode.TheVariants.{CannotOpen};
ghost use Rattle.adm_rows.specs.Represents.{IsStarted};
ghost use Rattle.adm_host.specs.Exits.{IsOpenFault, IsDisk};
ghost use Rattle.adm_host.specs.declared.cause.Cause.TheVariants.{Changed};
ghost use Rattle.adm_host.specs.Found.{IsFound, IsUntouched, LeavesAsFound};

use crate::cause::{Cause, cause_of_new};
use crate::fault::Fault;
use sqlite::{Connection, Error, FileFrom, FileStore, Leftover, Start};
use sqlite_disk::Disk;
use std::marker::PhantomData;

/// Why a file was not opened, and what remained of it and its log.
pub struct OpenError<D: Disk> {
    pub fault: Fault,
    pub remains: Remainder<D>,
}

/// What remained of a file and its log where an open failed. No variant is of files that were
/// changed.
pub enum Remainder<D: Disk> {
    /// They were not opened.
    Untouched(Untouched<D>),
    /// `sqlite` opened them, and failed then.
    Files(Leftover<D>),
    /// They were opened, and nothing was done with them.
    Connection(Connection<FileStore<D>>),
}

/// That the files were not opened: their start was used up for nothing else, or for an open in
/// which the system opened none. It is made in this module alone.
pub struct Untouched<D: Disk> {
    disk: PhantomData<D>,
}

impl<D: Disk> OpenError<D> {
    /// What remained of the file and its log.
    pub fn into_remains(self) -> Remainder<D>
        ensures { result ≡ self.remains }
    {
        let OpenError { fault: _, remains } = self;
        remains
    }
}

impl<D: Disk + Drop> Drop for OpenError<D> {
    fn drop(self) {
        let OpenError {
            fault: _,
            remains: _,
        } = self;
    }
}

impl<D: Disk + Drop> Drop for Untouched<D> {
    fn drop(self) {
        let Untouched { disk: _ } = self;
    }
}

impl<D: Disk + Drop> Drop for Remainder<D> {
    fn drop(self) {
        match self {
            Remainder::Untouched(_untouched) => {}
            Remainder::Files(_left) => {}
            Remainder::Connection(_conn) => {}
        }
    }
}

/// What remains of the files of a start that is used up, so that nothing opens them.
pub fn leave_unopened<S: Start>(_start: S) -> Remainder<FileFrom<S>>
    ensures { IsUntouched result }
{
    Remainder::Untouched(Untouched { disk: PhantomData })
}

/// An error before the files of a start were opened. The start is used up, so nothing opens them.
pub fn before_open<S: Start>(fault: Fault, _start: S) -> OpenError<FileFrom<S>>
    ensures fault { result.fault ≡ fault }
    ensures left { LeavesAsFound (image_at S.Start) result.remains }
{
    OpenError {
        fault,
        remains: Remainder::Untouched(Untouched { disk: PhantomData }),
    }
}

/// The error that the file changed after its trial: it was opened, and nothing was done with it.
pub fn changed<D: Disk>(conn: Connection<FileStore<D>>) -> OpenError<D>
    ensures { result ≡ record { fault = Fault.Disk (Some Changed); remains = Remainder.Connection conn } }
{
    OpenError {
        fault: Fault::Disk(Some(Cause::Changed)),
        remains: Remainder::Connection(conn),
    }
}

/// Why `sqlite` did not open the file, with the cause that the system names.
fn fault_of_open(rt: &HostRuntime, file: &str, error: Error) -> Fault
    ensures fault { IsOpenFault result }
    ensures refused { error ≡ SqliteFailure CannotOpen → IsDisk result }
{
    match Fault::from(error) {
        Fault::Disk(None) => Fault::Disk(cause_of_new(rt, file)),
        fault => fault,
    }
}

/// What remained of the files after an open of `sqlite` that failed.
fn remains_of<S: Start>(left: Option<Leftover<FileFrom<S>>>) -> Remainder<FileFrom<S>>
    requires { IfSome left (λ it. (files : _) × IsFresh true files.log × IsFresh false files.db × (IsCleanLeft it → LeavesFiles files it)) }
    ensures { LeavesAsFound (image_at S.Start) result }
{
    match left {
        Some(left) => Remainder::Files(left),
        None => Remainder::Untouched(Untouched { disk: PhantomData }),
    }
}

/// Opens the file, or makes it. The `Err` is Disk, or Memory where memory ran out.
pub fn open_file<S: Start>(
    rt: &HostRuntime,
    file: &str,
    start: S,
) -> Result<Connection<FileStore<FileFrom<S>>>, OpenError<FileFrom<S>>>
    ensures ended { IfOk result (λ c. c.in_transaction ≡ false) }
    ensures unlimited { IfOk result (λ c. c.step_limit ≡ None) }
    ensures started { IfOk result (λ c. IsStarted (file_state c)) }
    ensures found { IfOk result (IsFound (image_at S.Start)) }
    ensures err { IfErr result (λ e. IsOpenFault e.fault) }
    ensures left { IfErr result (λ e. LeavesAsFound (image_at S.Start) e.remains) }
    ensures memory { file.now ≡ codes ":memory:" → IsErrAnd result (λ e. IsDisk e.fault) }
{
    match Connection::open_from(rt, file, false, start) {
        Ok(conn) => Ok(conn),
        Err((error, left)) => Err(OpenError {
            fault: fault_of_open(rt, file, error),
            remains: remains_of(left),
        }),
    }
}
