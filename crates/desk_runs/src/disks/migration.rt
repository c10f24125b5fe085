// A register in a file of the first version, and what an open that was stopped left of it.
use crate::disks::Disks;
use crate::disks::found::NotFound;
use crate::registers::is_same;
use adm_register::Register;
use adm_schema::Version;
use std::alloc::{AllocError, Global};
use std::io;

/// The register of a file of the first version.
#[derive(Drop)]
pub(crate) struct Migration {
    register: Register,
}

/// What disks have of it.
#[derive(Clone, Copy, Debug)]
pub(crate) enum Kept {
    /// The register, in tables of the first version.
    First,
    /// The register, in tables of the second.
    Second,
    /// Another register, none, or other tables.
    Neither,
}

fn kept_in(version: Option<Version>) -> Kept {
    match version {
        Some(Version::First) => Kept::First,
        Some(Version::Second) => Kept::Second,
        None => Kept::Neither,
    }
}

fn migration_of(found: Result<Register, NotFound>) -> Option<Migration> {
    match found {
        Ok(register) => Some(Migration { register }),
        Err(_) => None,
    }
}

impl Migration {
    /// The register of disks with tables of the first version. `None` where they have none, or others.
    pub(crate) fn of(alloc: Global, disks: &Disks) -> io::Result<Option<Migration>> {
        match disks.version(alloc)? {
            Some(Version::First) => Ok(migration_of(disks.register(alloc)?)),
            _ => Ok(None),
        }
    }

    fn is_found(
        &self,
        alloc: Global,
        found: &Result<Register, NotFound>,
    ) -> Result<bool, AllocError> {
        match found {
            Ok(register) => is_same(alloc, &self.register, register),
            Err(_) => Ok(false),
        }
    }

    /// What the disks have of the register.
    pub(crate) fn left_on(&self, alloc: Global, disks: &Disks) -> io::Result<Kept> {
        let version = disks.version(alloc)?;
        let found = disks.register(alloc)?;
        if self.is_found(alloc, &found)? {
            Ok(kept_in(version))
        } else {
            Ok(Kept::Neither)
        }
    }
}
