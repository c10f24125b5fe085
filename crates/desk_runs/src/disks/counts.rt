// How much a command writes.
use crate::disks::Disks;
use crate::registers::copy_of;
use crate::steps::Act;
use adm_commands::propose;
use adm_register::{Difference, Register};
use adm_store::changes;
use adm_types::Command;
use std::alloc::Global;
use std::io;

/// How many rows an act puts, and of how many keys it takes the rows out.
#[derive(Clone, Copy, Debug)]
pub(crate) struct Counts {
    pub(crate) put: u64,
    pub(crate) cut: u64,
}

fn written(alloc: Global, old: &Register, difference: Difference) -> Option<Counts> {
    match changes(alloc, old, difference) {
        Ok(changes) => Some(Counts {
            put: changes.put(),
            cut: changes.cut(),
        }),
        Err(_) => None,
    }
}

fn of_command(alloc: Global, register: &Register, command: &Command) -> Option<Counts> {
    let Ok(command) = copy_of(command) else {
        return None;
    };
    match propose(register, alloc, command) {
        Ok(proposal) => written(alloc, register, proposal.change),
        Err(_) => None,
    }
}

impl Counts {
    /// What a command writes over the register that disks have. `None` where there is none, where
    /// the register refuses it, where memory ran out, and for an act that is no command.
    pub(crate) fn of(alloc: Global, disks: &Disks, act: &Act) -> io::Result<Option<Counts>> {
        let register = disks.register(alloc)?;
        Ok(match (&register, act) {
            (Ok(register), Act::Handle(command)) => of_command(alloc, register, command),
            _ => None,
        })
    }
}
