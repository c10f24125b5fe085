// A trial of an open on a copy of the file and its log: an open that is refused leaves both as they were.
ghost use Rattle.std.specs.Prelude.{IfErr};
ghost use Rattle.adm_host.specs.Exits.{IsOpenFault};

use crate::fault::Fault;
use crate::found::{Found, make_private};
use os::RangeLock;
use std::fs::{self, File, OpenOptions};
use std::io::{self, ErrorKind, Seek, SeekFrom};
use std::os::fd::AsRawFd;

/// The file and its log, which no other program can open meanwhile, and the paths of their copies.
/// The lock is that of this handle alone, so `sqlite` can open neither until it is dropped; what it
/// opens and closes elsewhere does not end the lock.
#[derive(Drop)]
pub struct Trial {
    file: File,
    log: Option<File>,
    copy: String,
    copied_log: String,
}

impl Trial {
    /// Opens both files and locks them as `sqlite` does. The `Err` is Memory, or Disk, with the cause
    /// InUse where another program has them open.
    pub fn hold(rt: &HostRuntime, found: &Found) -> Result<Trial, Fault>
        ensures { IfErr result IsOpenFault }
    {
        let path = found.path.as_str();
        let file = OpenOptions::new().read(true).write(true).open(rt, path)?;
        // the pending, reserved and shared locks of SQLite
        if os::try_lock_range(file.as_raw_fd(), RangeLock::Exclusive, 1 << 30, 512) != 0 {
            return Err(Fault::from(io::Error::from_raw_os_error(os::errno())));
        }
        let log = match File::open(rt, found.log.as_str()) {
            Ok(log) => Some(log),
            Err(error) if error.kind() == ErrorKind::NotFound => None,
            Err(error) => return Err(Fault::from(error)),
        };
        Ok(Trial {
            file,
            log,
            copy: format!(in rt.alloc(); "{path}.trial")?,
            copied_log: format!(in rt.alloc(); "{path}.trial-wal")?,
        })
    }

    /// Where the copy of the file is.
    pub fn copy(&self) -> &str {
        self.copy.as_str()
    }

    /// Copies both files. Copies that are there, as of a program that was killed, are removed first.
    pub fn make_copies(&self, rt: &HostRuntime) -> io::Result<()> {
        remove(rt, self.copy.as_str())?;
        remove(rt, self.copied_log.as_str())?;
        copy_whole(rt, &self.file, self.copy.as_str())?;
        match &self.log {
            Some(log) => copy_whole(rt, log, self.copied_log.as_str()),
            None => Ok(()),
        }
    }

    /// Removes the copies, and lets go of the files. What cannot be removed is left to the next trial.
    pub fn end(self, rt: &HostRuntime) {
        let _ = remove(rt, self.copy.as_str());
        let _ = remove(rt, self.copied_log.as_str());
    }
}

fn copy_whole(rt: &HostRuntime, from: &File, to: &str) -> io::Result<()> {
    let mut source = from;
    source.seek(SeekFrom::Start(0))?;
    let mut target = make_private(rt, to)?;
    io::copy(&mut source, &mut target)?;
    Ok(())
}

// Removes a file that may not be there.
fn remove(rt: &HostRuntime, path: &str) -> io::Result<()> {
    match fs::remove_file(rt, path) {
        Err(error) if error.kind() != ErrorKind::NotFound => Err(error),
        _ => Ok(()),
    }
}
