// The file of a register and the log beside it, as they are before an open.
ghost use Rattle.std.specs.Prelude.{◌≡◌, true, codes, IfErr, IsErrAnd};
ghost use Rattle.adm_host.specs.Exits.{IsOpenFault, IsDisk};

use crate::cause::{Cause, cause_of_type};
use crate::fault::Fault;
use std::fs::{self, File, OpenOptions, Permissions};
use std::io::{self, ErrorKind, Read};
use std::os::unix::fs::{MetadataExt, OpenOptionsExt, PermissionsExt};
use std::path::PathBuf;

/// How long a log with a page is at least: its header takes 32 bytes, and the head of a page 24.
const BYTES_TO_FIRST_PAGE: u64 = 56;

/// The rights of a file with data of children: those of its owner alone.
const PRIVATE: u32 = 0o600;

/// A regular file, and the log beside it.
#[derive(Drop)]
pub struct Found {
    /// Where the file is, with no link in the path.
    pub(crate) path: PathBuf,
    /// Where its log is, or would be.
    pub(crate) log: String,
    /// The size of the file in bytes.
    pub(crate) size: u64,
    /// How many names the file has.
    names: u64,
    /// Whether the log has a page.
    pub(crate) has_pages: bool,
}

/// How a file begins.
#[derive(Clone, Copy, Debug, PartialEq, Eq)]
pub enum Head {
    /// As a database does, or nothing is known of it.
    Database,
    /// As a new database whose program was killed: `sqlite` writes its first byte last, and before
    /// that a zero alone, and then a page that begins with it. Nothing is in such a file.
    Unfinished,
    /// As no database does: an open could only refuse it.
    Foreign,
}

impl Found {
    /// Finds the file that is to be opened, which is there. `Some` where an open may write to it before
    /// it is known to be a register.
    pub fn doubtful(rt: &HostRuntime, file: &str) -> Result<Option<Found>, Fault>
        ensures err { IfErr result IsOpenFault }
        ensures memory { file.now ≡ codes ":memory:" → IsErrAnd result IsDisk }
    {
        if is_reserved(file) {
            return Err(Fault::Disk(None));
        }
        let found = Found::at(rt, file)?;
        match found.head(rt) {
            Head::Database if found.is_doubtful() => Ok(Some(found)),
            Head::Database => Ok(None),
            Head::Unfinished | Head::Foreign => Err(Fault::Disk(Some(Cause::NoDatabase))),
        }
    }

    /// What is at the path. The `Err` is Memory, or Disk where no regular file is there.
    pub(crate) fn at(rt: &HostRuntime, file: &str) -> Result<Found, Fault>
        ensures { IfErr result IsOpenFault }
    {
        let found = fs::metadata(rt, file)?;
        if let Some(cause) = cause_of_type(&found) {
            return Err(Fault::Disk(Some(cause)));
        }
        let path = fs::canonicalize(rt, file)?;
        let log = format!(in rt.alloc(); "{}-wal", path.as_str())?;
        let has_pages = has_pages(rt, log.as_str());
        Ok(Found {
            path,
            log,
            size: found.len(),
            names: found.nlink(),
            has_pages,
        })
    }

    /// How the file begins, where that says anything: in a file whose log has pages a crash may have
    /// left the first bytes half written.
    pub(crate) fn head(&self, rt: &HostRuntime) -> Head {
        if self.has_pages || self.size == 0 {
            Head::Database
        } else {
            head_of(rt, self.path.as_str())
        }
    }

    /// Whether an open may write to the file before it is known to be a register: it takes in the
    /// pages of the log, and makes an empty file a database. A file with a second name is refused
    /// by `sqlite` before that.
    fn is_doubtful(&self) -> bool {
        self.names == 1 && (self.size == 0 || self.has_pages)
    }
}

/// Whether `sqlite` opens nothing at this path: it is the name of a database in memory, or a URI.
pub fn is_reserved(file: &str) -> bool
    ensures { file.now ≡ codes ":memory:" → result ≡ true }
{
    file == ":memory:" || file.starts_with("file:")
}

/// Makes an empty file for a register, which its owner alone may read and write. Where the log of
/// another file has its name, none is made, since that log would be read into it.
pub fn make_empty(rt: &HostRuntime, file: &str) -> Result<(), Fault>
    ensures { IfErr result IsOpenFault }
{
    let log = format!(in rt.alloc(); "{file}-wal")?;
    if has_pages(rt, log.as_str()) {
        return Err(Fault::Disk(Some(Cause::LogBeside)));
    }
    match make_private(rt, file) {
        Ok(_file) => Ok(()),
        // a link that leads nowhere, which `sqlite` refuses
        Err(error) if error.kind() == ErrorKind::AlreadyExists => Ok(()),
        Err(error) => Err(Fault::from(error)),
    }
}

/// Makes a file that its owner alone may read and write, whatever the umask.
pub fn make_private(rt: &HostRuntime, path: &str) -> io::Result<File> {
    let file = OpenOptions::new()
        .write(true)
        .create_new(true)
        .mode(PRIVATE)
        .open(rt, path)?;
    file.set_permissions(Permissions::from_mode(PRIVATE))?;
    Ok(file)
}

// Whether there is a log with a page. What is there that is no regular file `sqlite` refuses.
fn has_pages(rt: &HostRuntime, log: &str) -> bool {
    match fs::symlink_metadata(rt, log) {
        Ok(found) => found.is_file() && found.len() >= BYTES_TO_FIRST_PAGE,
        Err(_) => false,
    }
}

// How a file begins. What cannot be read is left to the open.
fn head_of(rt: &HostRuntime, file: &str) -> Head {
    let mut found = [0u8; 16];
    let read = match fs::open(rt, file) {
        Ok(mut opened) => opened.read(&mut found),
        Err(error) => Err(error),
    };
    match read {
        Ok(0) | Err(_) => Head::Database,
        Ok(1) if found[0] == 0 => Head::Unfinished,
        Ok(_) if found.as_slice() == b"SQLite format 3\0".as_slice() => Head::Database,
        Ok(_) if found.as_slice() == b"\0QLite format 3\0".as_slice() => Head::Unfinished,
        Ok(_) => Head::Foreign,
    }
}
