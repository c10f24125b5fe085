// Two disks in memory, a database's and its log's. Between steps they are kept as bytes.
use crate::disks::database::done;
use crate::disks::found::{NotFound, found};
use crate::disks::work::{Opening, Tables, Text, Work};
use crate::steps::Which;
use adm_register::Register;
use adm_schema::Version;
use sqlite::{Error, Files};
use sqlite_disk::{Crash, Disk, Fuse, Memory};
use std::alloc::{AllocError, Global};
use std::io;

/// A disk in memory that passes so many calls, and then none.
type Fused = Fuse<Memory>;

/// What the two disks hold.
#[derive(Drop)]
pub(crate) struct Disks {
    log: Vec<u8>,
    db: Vec<u8>,
}

/// A disk that holds these bytes.
fn disk(alloc: Global, bytes: &[u8]) -> io::Result<Memory> {
    let mut memory = Memory::new(alloc);
    if !bytes.is_empty() {
        memory.write_at(0, bytes)?;
        if memory.may_be_used() {
            memory.sync()?;
        }
    }
    Ok(memory)
}

/// How many calls the log's disk passes, and how many the database's, where one may stop after so many.
pub(crate) fn calls_until(stop: Option<(Which, u64)>) -> (u64, u64) {
    match stop {
        None => (u64::MAX, u64::MAX),
        Some((Which::Log, calls)) => (calls, u64::MAX),
        Some((Which::Database, calls)) => (u64::MAX, calls),
    }
}

impl Disks {
    /// Empty disks.
    pub(crate) fn new(alloc: Global) -> Disks {
        Disks {
            log: Vec::new(alloc),
            db: Vec::new(alloc),
        }
    }

    /// Disks that hold these bytes.
    pub(crate) fn holding(alloc: Global, db: &[u8], log: &[u8]) -> Result<Disks, AllocError> {
        Ok(Disks {
            log: Vec::from_slice(alloc, log)?,
            db: Vec::from_slice(alloc, db)?,
        })
    }

    fn held_by(alloc: Global, files: &Files<Fused>) -> Result<Disks, AllocError> {
        Ok(Disks {
            log: Vec::from_slice(alloc, files.log.inner().bytes())?,
            db: Vec::from_slice(alloc, files.db.inner().bytes())?,
        })
    }

    /// What these files hold.
    fn of(alloc: Global, files: Files<Fused>) -> Result<Disks, AllocError> {
        Disks::held_by(alloc, &files)
    }

    /// What these files hold after a loss of power, which leaves what was synced.
    pub(crate) fn after_loss(alloc: Global, mut files: Files<Fused>) -> Result<Disks, AllocError> {
        files.log.crash();
        files.db.crash();
        Disks::of(alloc, files)
    }

    /// What these files hold, and what they hold after a loss of power.
    fn with_and_without_loss(
        alloc: Global,
        files: Files<Fused>,
    ) -> Result<(Disks, Disks), AllocError> {
        let written = Disks::held_by(alloc, &files)?;
        let synced = Disks::after_loss(alloc, files)?;
        Ok((written, synced))
    }

    /// The same.
    pub(crate) fn copy(&self, alloc: Global) -> Result<Disks, AllocError> {
        Ok(Disks {
            log: Vec::from_slice(alloc, &self.log)?,
            db: Vec::from_slice(alloc, &self.db)?,
        })
    }

    /// Files that hold the same.
    pub(crate) fn files(&self, alloc: Global) -> io::Result<Files<Memory>> {
        Ok(Files {
            log: disk(alloc, &self.log)?,
            db: disk(alloc, &self.db)?,
        })
    }

    /// Files that hold the same, of which one may stop after so many calls.
    fn stopping(&self, alloc: Global, stop: Option<(Which, u64)>) -> io::Result<Files<Fused>> {
        let (log, db) = calls_until(stop);
        Ok(Files {
            log: Fuse::new(disk(alloc, &self.log)?, log),
            db: Fuse::new(disk(alloc, &self.db)?, db),
        })
    }

    /// Does a work with the database on files that hold the same, of which one may stop after so many calls.
    /// `None`: it was not opened. Also the disks after it.
    pub(crate) fn after<W: Work>(
        &self,
        alloc: Global,
        stop: Option<(Which, u64)>,
        work: &W,
    ) -> io::Result<(Option<W::Came>, Disks)> {
        let (came, files) = done(alloc, self.stopping(alloc, stop)?, work);
        let disks = Disks::of(alloc, files)?;
        Ok((came, disks))
    }

    /// The same, with the disks after it as they were written, and after a loss of power.
    pub(crate) fn after_stop<W: Work>(
        &self,
        alloc: Global,
        stop: (Which, u64),
        work: &W,
    ) -> io::Result<(Option<W::Came>, Disks, Disks)> {
        let (came, files) = done(alloc, self.stopping(alloc, Some(stop))?, work);
        let (written, synced) = Disks::with_and_without_loss(alloc, files)?;
        Ok((came, written, synced))
    }

    /// What comes of a text that is run on the database, if it was opened, and the disks after it.
    pub(crate) fn after_sql(
        &self,
        alloc: Global,
        sql: &str,
    ) -> io::Result<(Option<Result<(), Error>>, Disks)> {
        self.after(alloc, None, &Text { sql })
    }

    /// What an open finds on them, and the disks after it.
    pub(crate) fn opened(&self, alloc: Global) -> io::Result<(Result<Register, NotFound>, Disks)> {
        let (came, disks) = self.after(alloc, None, &Opening)?;
        Ok((found(came), disks))
    }

    /// The register that an open finds on them.
    pub(crate) fn register(&self, alloc: Global) -> io::Result<Result<Register, NotFound>> {
        let (found, _disks) = self.opened(alloc)?;
        Ok(found)
    }

    /// What an open finds on files that hold the same, of which one stops after so many calls; and the disks after it as they were written, and
    /// after a loss of power.
    pub(crate) fn after_open(
        &self,
        alloc: Global,
        stop: (Which, u64),
    ) -> io::Result<(Result<Register, NotFound>, Disks, Disks)> {
        let (came, written, synced) = self.after_stop(alloc, stop, &Opening)?;
        Ok((found(came), written, synced))
    }

    /// The version of their tables, as they are before a register is opened. `None`: no database, or other tables.
    pub(crate) fn version(&self, alloc: Global) -> io::Result<Option<Version>> {
        let (came, _disks) = self.after(alloc, None, &Tables)?;
        Ok(came.flatten())
    }

    /// Whether both disks hold the same.
    pub(crate) fn is_same(&self, other: &Disks) -> bool {
        self.log.as_slice() == other.log.as_slice() && self.db.as_slice() == other.db.as_slice()
    }
}
