// How the file of a register is opened.
ghost use Rattle.std.specs.Prelude.{◌≡◌, codes, IfOk, IfErr, IsErr, IsErrAnd};
ghost use Rattle.sqlite_wal.specs.Files.{image_at};
ghost use Rattle.adm_host.specs.Exits.{IsOpenFault, IsDisk};
ghost use Rattle.adm_host.specs.Found.{LeavesAsFound};
ghost use Rattle.adm_files.specs.Opened.{IsOpened, OpensAs};

use crate::closing::{close, connection_of};
use adm_desk::Desk;
use adm_host::{
    Exit, Fault, Found, LineEnd, OpenError, Trial, before_close, before_open, changed, close_files,
    open_file,
};
use sqlite::{FileFrom, FileStore, Start, Unknown};

/// A desk over the register in a file, or how the line ended without one.
pub type OpenResult<D> = Result<Desk<FileStore<D>>, LineEnd<D>>;

/// Opens the register in the file, which is there: an open makes no file here. The `Err` is why the
/// file was not opened, with what remained of it.
///
/// A file that is refused stays as it was, and so does a log with pages. An open of a file that
/// begins as a database, without such a log, writes nothing before it knows the register. Where the
/// file is empty, or where a crash left pages in the log, the open is tried on a copy of both first.
/// So after a crash it costs a copy and a second open, and room for the copy.
pub fn open_desk<S: Start>(
    rt: &HostRuntime,
    file: &str,
    start: S,
) -> Result<OpenResult<FileFrom<S>>, OpenError<FileFrom<S>>>
    ensures ok { IfOk result (OpensAs (image_at S.Start)) }
    ensures err { IfErr result (λ e. IsOpenFault e.fault) }
    ensures left { IfErr result (λ e. LeavesAsFound (image_at S.Start) e.remains) }
    ensures memory { file.now ≡ codes ":memory:" → IsErrAnd result (λ e. IsDisk e.fault) }
{
    match Found::doubtful(rt, file) {
        Ok(Some(found)) => open_after_trial(rt, file, &found, start),
        Ok(None) => open_at(rt, file, start),
        Err(fault) => Err(before_open(fault, start)),
    }
}

/// Opens the register in the file where its copy is one; else the copy's refusal is the file's.
fn open_after_trial<S: Start>(
    rt: &HostRuntime,
    file: &str,
    found: &Found,
    start: S,
) -> Result<OpenResult<FileFrom<S>>, OpenError<FileFrom<S>>>
    ensures ok { IfOk result (OpensAs (image_at S.Start)) }
    ensures err { IfErr result (λ e. IsOpenFault e.fault) }
    ensures left { IfErr result (λ e. LeavesAsFound (image_at S.Start) e.remains) }
{
    let trial = match Trial::hold(rt, found) {
        Ok(trial) => trial,
        Err(fault) => return Err(before_open(fault, start)),
    };
    match is_refused(rt, &trial) {
        Ok(false) => {
            trial.end(rt);
            open_at(rt, file, start)
        }
        Ok(true) => {
            let refused = refuse(rt, &trial, start);
            trial.end(rt);
            refused
        }
        Err(fault) => {
            trial.end(rt);
            Err(before_open(fault, start))
        }
    }
}

/// Whether the copies are those of no register. The `Err` is why that could not be found out.
fn is_refused(rt: &HostRuntime, trial: &Trial) -> Result<bool, Fault>
    ensures { IfErr result IsOpenFault }
{
    trial.make_copies(rt)?;
    let ended = match open_at(rt, trial.copy(), Unknown) {
        Ok(Ok(desk)) => close(desk, Ok(Exit::Done)),
        Ok(Err(ended)) => ended,
        Err(error) => return Err(error.fault),
    };
    match before_close(ended) {
        Ok(_exit) => Ok(false),
        Err(Fault::NotOurs | Fault::Version | Fault::BadRow) => Ok(true),
        Err(Fault::Memory) => Err(Fault::Memory),
        // the one other error of an open
        Err(_) => Err(Fault::Disk(None)),
    }
}

/// Refuses new copies, and so the file: it never gives a desk, which would be one over a copy.
fn refuse<S: Start>(
    rt: &HostRuntime,
    trial: &Trial,
    start: S,
) -> Result<OpenResult<FileFrom<S>>, OpenError<FileFrom<S>>>
    ensures ok { IfOk result (OpensAs (image_at S.Start)) }
    ensures refused { IfOk result IsErr }
    ensures err { IfErr result (λ e. IsOpenFault e.fault) }
    ensures left { IfErr result (λ e. LeavesAsFound (image_at S.Start) e.remains) }
{
    if let Err(error) = trial.make_copies(rt) {
        return Err(before_open(Fault::from(error), start));
    }
    match open_at(rt, trial.copy(), start)? {
        Ok(desk) => Err(changed_meanwhile(desk)),
        Err(ended) => Ok(Err(ended)),
    }
}

/// The error that a file was refused, and then was a register.
fn changed_meanwhile<S: Start>(desk: Desk<FileStore<FileFrom<S>>>) -> OpenError<FileFrom<S>>
    requires { IsOpened (image_at S.Start) desk }
    ensures err { IsOpenFault result.fault }
    ensures left { LeavesAsFound (image_at S.Start) result.remains }
{
    changed(connection_of(desk))
}

/// Opens the register in the file at the path.
fn open_at<S: Start>(
    rt: &HostRuntime,
    path: &str,
    start: S,
) -> Result<OpenResult<FileFrom<S>>, OpenError<FileFrom<S>>>
    ensures ok { IfOk result (OpensAs (image_at S.Start)) }
    ensures err { IfErr result (λ e. IsOpenFault e.fault) }
    ensures left { IfErr result (λ e. LeavesAsFound (image_at S.Start) e.remains) }
{
    let conn = open_file(rt, path, start)?;
    match Desk::open(rt.alloc(), conn) {
        Ok(desk) => Ok(Ok(desk)),
        Err((fault, conn)) => Ok(Err(LineEnd {
            exit: Err(Fault::from(fault)),
            closed: close_files(conn),
        })),
    }
}
