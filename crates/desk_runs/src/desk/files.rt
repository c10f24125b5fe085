// Files beside the run, read into disks.
use crate::disks::Disks;
use std::alloc::Global;
use std::fs::{self, Files};
use std::io;

/// The bytes of the log of this name. There are none where there is no file.
fn log_of<R: Files + Alloc>(rt: &R, alloc: Global, name: &str) -> io::Result<Vec<u8, R::A>> {
    let log = format!(in alloc; "{name}.db-wal")?;
    if fs::exists(rt, log.as_str())? {
        fs::read(rt, log.as_str())
    } else {
        Ok(Vec::new(rt.alloc()))
    }
}

/// Disks that hold what the file NAME.db holds, and the log beside it where there is one.
pub(crate) fn disks_of<R: Files + Alloc>(rt: &R, alloc: Global, name: &str) -> io::Result<Disks> {
    let file = format!(in alloc; "{name}.db")?;
    let db = fs::read(rt, file.as_str())?;
    let log = log_of(rt, alloc, name)?;
    Ok(Disks::holding(alloc, &db, &log)?)
}
