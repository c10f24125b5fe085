// How the register of a season is created in a file.
ghost use Rattle.std.specs.Prelude.{◌≡◌, ◌≢◌, false, codes, IfOk, IfErr, IsErr, IsErrAnd};
ghost use Rattle.sqlite_wal.specs.Files.{image_at};
ghost use Rattle.adm_host.specs.Exits.{IsOpenFault, IsDisk};
ghost use Rattle.adm_schema.specs.Schema.{no_schema};
ghost use Rattle.adm_host.specs.Found.{LeavesAsFound};
ghost use Rattle.adm_host.specs.Creation.{Creates, CreatesIn};

use crate::cause::Cause;
use crate::connecting::{OpenError, before_open, changed, open_file};
use crate::ended::{LineEnd, before_close, close_files};
use crate::exit::Exit;
use crate::fault::Fault;
use crate::found::{Found, Head, is_reserved, make_empty};
use crate::trial::Trial;
use adm_store::create;
use adm_types::Season;
use sqlite::{Connection, FileFrom, FileStore, Start, Unknown};
use sqlite_disk::Disk;
use std::alloc::Global;

/// Creates the register of a season in the file. The `Err` is why it was not opened, with what
/// remained of it.
///
/// A file that is made here is one that its owner alone may read and write. A file that is refused
/// stays as it was, and so does its log: where the log has pages, the file is tried on a copy first,
/// and an empty or a missing file beside such a log is refused.
pub fn init<S: Start>(
    rt: &HostRuntime,
    file: &str,
    start: S,
    season: &Season,
) -> Result<LineEnd<FileFrom<S>>, OpenError<FileFrom<S>>>
    ensures ok { IfOk result (λ ended. Creates (image_at S.Start) season.now ended.exit ended.closed) }
    ensures err { IfErr result (λ e. IsOpenFault e.fault) }
    ensures left { IfErr result (λ e. LeavesAsFound (image_at S.Start) e.remains) }
    ensures memory { file.now ≡ codes ":memory:" → IsErrAnd result (λ e. IsDisk e.fault) }
{
    match doubtful(rt, file) {
        Ok(Some(found)) => create_after_trial(rt, file, &found, start, season),
        Ok(None) => create_at(rt, file, start, season),
        Err(fault) => Err(before_open(fault, start)),
    }
}

/// Finds or makes the file. `Some` where its log has pages, so that an open would write to it.
fn doubtful(rt: &HostRuntime, file: &str) -> Result<Option<Found>, Fault>
    ensures err { IfErr result IsOpenFault }
    ensures memory { file.now ≡ codes ":memory:" → IsErrAnd result IsDisk }
{
    if is_reserved(file) {
        return Err(Fault::Disk(None));
    }
    match Found::at(rt, file) {
        Ok(found) => match found.head(rt) {
            Head::Foreign => Err(Fault::Disk(Some(Cause::NoDatabase))),
            Head::Unfinished => Ok(Some(found)),
            Head::Database if !found.has_pages => Ok(None),
            Head::Database if found.size == 0 => Err(Fault::Disk(Some(Cause::LogBeside))),
            Head::Database => Ok(Some(found)),
        },
        Err(Fault::Disk(Some(Cause::Missing))) => {
            make_empty(rt, file)?;
            Ok(None)
        }
        Err(fault) => Err(fault),
    }
}

/// Creates the register in the file where one can be created in its copy; else the copy's refusal is
/// the file's.
fn create_after_trial<S: Start>(
    rt: &HostRuntime,
    file: &str,
    found: &Found,
    start: S,
    season: &Season,
) -> Result<LineEnd<FileFrom<S>>, OpenError<FileFrom<S>>>
    ensures ok { IfOk result (λ ended. Creates (image_at S.Start) season.now ended.exit ended.closed) }
    ensures err { IfErr result (λ e. IsOpenFault e.fault) }
    ensures left { IfErr result (λ e. LeavesAsFound (image_at S.Start) e.remains) }
{
    let trial = match Trial::hold(rt, found) {
        Ok(trial) => trial,
        Err(fault) => return Err(before_open(fault, start)),
    };
    match is_taken(rt, &trial, season) {
        Ok(false) => {
            trial.end(rt);
            create_at(rt, file, start, season)
        }
        Ok(true) => {
            let refused = refuse(rt, &trial, start, season);
            trial.end(rt);
            refused
        }
        Err(fault) => {
            trial.end(rt);
            Err(before_open(fault, start))
        }
    }
}

/// Whether the copies have tables already. The `Err` is why that could not be found out.
fn is_taken(rt: &HostRuntime, trial: &Trial, season: &Season) -> Result<bool, Fault>
    ensures { IfErr result IsOpenFault }
{
    trial.make_copies(rt)?;
    let ended = match create_at(rt, trial.copy(), Unknown, season) {
        Ok(ended) => ended,
        Err(error) => return Err(error.fault),
    };
    match before_close(ended) {
        Ok(_exit) => Ok(false),
        Err(Fault::InUse) => Ok(true),
        Err(Fault::Memory) => Err(Fault::Memory),
        // the one other error of a create
        Err(_) => Err(Fault::Disk(None)),
    }
}

/// Refuses new copies, and so the file: it never gives a register, which would be one in a copy.
fn refuse<S: Start>(
    rt: &HostRuntime,
    trial: &Trial,
    start: S,
    season: &Season,
) -> Result<LineEnd<FileFrom<S>>, OpenError<FileFrom<S>>>
    ensures ok { IfOk result (λ ended. Creates (image_at S.Start) season.now ended.exit ended.closed) }
    ensures refused { IfOk result (λ ended. IsErr ended.exit) }
    ensures err { IfErr result (λ e. IsOpenFault e.fault) }
    ensures left { IfErr result (λ e. LeavesAsFound (image_at S.Start) e.remains) }
{
    if let Err(error) = trial.make_copies(rt) {
        return Err(before_open(Fault::from(error), start));
    }
    let conn = open_file(rt, trial.copy(), start)?;
    if is_unused(&conn) {
        return Err(changed(conn));
    }
    Ok(create_register(rt.alloc(), conn, season))
}

/// Whether a database has no table, no index and no view.
fn is_unused<D: Disk + Drop>(conn: &Connection<FileStore<D>>) -> bool
    ensures { result ≡ false → conn.now.schema ≢ no_schema }
{
    let schema = conn.schema();
    schema.tables.as_slice().is_empty()
        && schema.indexes.as_slice().is_empty()
        && schema.views.as_slice().is_empty()
}

/// Creates the register in the file at the path.
fn create_at<S: Start>(
    rt: &HostRuntime,
    path: &str,
    start: S,
    season: &Season,
) -> Result<LineEnd<FileFrom<S>>, OpenError<FileFrom<S>>>
    ensures ok { IfOk result (λ ended. Creates (image_at S.Start) season.now ended.exit ended.closed) }
    ensures err { IfErr result (λ e. IsOpenFault e.fault) }
    ensures left { IfErr result (λ e. LeavesAsFound (image_at S.Start) e.remains) }
{
    let conn = open_file(rt, path, start)?;
    Ok(create_register(rt.alloc(), conn, season))
}

/// Creates the register of a season, and closes the connection, whatever comes.
fn create_register<D: Disk + Drop>(
    alloc: Global,
    mut conn: Connection<FileStore<D>>,
    season: &Season,
) -> LineEnd<D>
    requires { conn.in_transaction ≡ false }
    ensures { CreatesIn conn season.now result.exit result.closed }
{
    match create(alloc, &mut conn, season) {
        Ok(()) => LineEnd {
            exit: Ok(Exit::Done),
            closed: close_files(conn),
        },
        Err(fault) => LineEnd {
            exit: Err(Fault::from(fault)),
            closed: close_files(conn),
        },
    }
}
