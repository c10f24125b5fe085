// The registers before and after an act, and which of them disks have.
use crate::disks::Disks;
use crate::disks::found::NotFound;
use crate::registers::{after, is_same};
use crate::steps::Act;
use adm_register::Register;
use adm_rows::OpenFault;
use std::alloc::{AllocError, Global};
use std::io;

/// The register before an act, if there is one, and the one after it.
#[derive(Drop)]
pub(crate) struct Ends {
    before: Option<Register>,
    after: Register,
}

/// Which register disks have.
#[derive(Clone, Copy, Debug)]
pub(crate) enum Left {
    Before,
    After,
    /// The register before is the one after.
    Both,
    Neither,
}

fn ends_of(alloc: Global, before: Option<Register>, act: &Act) -> Option<Ends> {
    match after(alloc, &before, act) {
        Some(after) => Some(Ends { before, after }),
        None => None,
    }
}

impl Ends {
    /// The registers before and after an act. `None` where the register refuses it.
    pub(crate) fn of(alloc: Global, disks: &Disks, act: &Act) -> io::Result<Option<Ends>> {
        let before = disks.register(alloc)?.ok();
        Ok(ends_of(alloc, before, act))
    }

    fn is_before(
        &self,
        alloc: Global,
        found: &Result<Register, NotFound>,
    ) -> Result<bool, AllocError> {
        match (&self.before, found) {
            (None, Err(NotFound::Refused(OpenFault::NotOurs))) => Ok(true),
            (Some(before), Ok(register)) => is_same(alloc, before, register),
            _ => Ok(false),
        }
    }

    fn is_after(
        &self,
        alloc: Global,
        found: &Result<Register, NotFound>,
    ) -> Result<bool, AllocError> {
        match found {
            Ok(register) => is_same(alloc, &self.after, register),
            Err(_) => Ok(false),
        }
    }

    /// Which of the two registers was found.
    fn which(&self, alloc: Global, found: &Result<Register, NotFound>) -> Result<Left, AllocError> {
        let is_before = self.is_before(alloc, found)?;
        let is_after = self.is_after(alloc, found)?;
        Ok(match (is_before, is_after) {
            (true, false) => Left::Before,
            (false, true) => Left::After,
            (true, true) => Left::Both,
            (false, false) => Left::Neither,
        })
    }

    /// Which of the two registers the disks have.
    pub(crate) fn left_on(&self, alloc: Global, disks: &Disks) -> io::Result<Left> {
        let found = disks.register(alloc)?;
        Ok(self.which(alloc, &found)?)
    }
}
