// What is known of why a file was not opened, beside the error.
use std::fs::{self, Metadata, OpenOptions};
use std::io::ErrorKind;
use std::path::Path;

/// Why a file was not opened or not written to its end, as far as it is known.
#[derive(Clone, Copy, Debug, PartialEq, Eq)]
pub enum Cause {
    /// There is no such file, or the folder for it is not there.
    Missing,
    /// A folder has this name.
    Folder,
    /// A pipe, a device or a socket has this name.
    NotRegular,
    /// The file may not be read and written.
    Forbidden,
    /// Another process has it open.
    InUse,
    /// The file is no database, or a damaged one.
    NoDatabase,
    /// The disk is full.
    Full,
    /// A log with pages is beside a file that has none.
    LogBeside,
    /// The file was not the same when it was read again.
    Changed,
}

/// What the system reports of a file that could not be opened. Nothing is made or changed, and only
/// a regular file is opened.
pub fn cause_of(rt: &HostRuntime, file: &str) -> Option<Cause> {
    match fs::metadata(rt, file) {
        Ok(found) => {
            if let Some(cause) = cause_of_type(&found) {
                return Some(cause);
            }
        }
        Err(error) => return cause_of_kind(error.kind()),
    }
    match OpenOptions::new().read(true).write(true).open(rt, file) {
        Ok(_) => None,
        Err(error) => cause_of_kind(error.kind()),
    }
}

/// Why what has this name is not opened: only a regular file is.
pub fn cause_of_type(found: &Metadata) -> Option<Cause> {
    if found.is_dir() {
        Some(Cause::Folder)
    } else if found.is_file() {
        None
    } else {
        Some(Cause::NotRegular)
    }
}

/// What the system reports of a file that could not be made.
pub fn cause_of_new(rt: &HostRuntime, file: &str) -> Option<Cause> {
    match cause_of(rt, file) {
        Some(Cause::Missing) => cause_of_folder(rt, file),
        cause => cause,
    }
}

// What the system reports of the folder that the file would be in.
fn cause_of_folder(rt: &HostRuntime, file: &str) -> Option<Cause> {
    let folder = Path::new(file).parent()?;
    match fs::metadata(rt, folder) {
        Err(error) if !folder.as_str().is_empty() => cause_of_kind(error.kind()),
        _ => None,
    }
}

/// The cause that an error of the system names. `WouldBlock` is that of a lock.
pub fn cause_of_kind(kind: ErrorKind) -> Option<Cause> {
    match kind {
        ErrorKind::NotFound => Some(Cause::Missing),
        ErrorKind::IsADirectory => Some(Cause::Folder),
        ErrorKind::PermissionDenied | ErrorKind::ReadOnlyFilesystem => Some(Cause::Forbidden),
        ErrorKind::WouldBlock => Some(Cause::InUse),
        ErrorKind::StorageFull | ErrorKind::QuotaExceeded => Some(Cause::Full),
        _ => None,
    }
}
