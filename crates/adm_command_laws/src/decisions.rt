// A command decided: its proposal without the change.
ghost use Rattle.std.specs.Prelude.{IfOk};
ghost use Rattle.adm_register.specs.WellFormed.{WellFormed};
ghost use Rattle.adm_register.specs.Extends.{Extends, KeepsSchools};
ghost use Rattle.adm_commands.specs.Steps.{Decides};

use adm_commands::{NotDone, Proposal, propose};
use adm_register::Register;
use adm_types::{Command, Reply};
use std::alloc::Global;

/// The register after the command and its reply, or why it was not done. The register before stays.
/// What it costs grows with the tables that the command changes; the others are shared.
pub fn decide(old: &Register, alloc: Global, command: Command) -> Result<(Register, Reply), NotDone>
    ensures step { Decides old.now command result }
    ensures extends { IfOk result (λ done. Extends old.now done.0 × WellFormed done.0) }
    ensures schools { IfOk result (λ done. KeepsSchools old.now done.0) }
{
    let Proposal {
        register,
        change: _,
        reply,
    } = propose(old, alloc, command)?;
    Ok((register, reply))
}
