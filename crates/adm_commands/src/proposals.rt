// A command's proposal: the register after it, what it changed, and its reply.
ghost use Rattle.std.specs.Prelude.{IfOk};
ghost use Rattle.adm_register.specs.WellFormed.{WellFormed};
ghost use Rattle.adm_register.specs.Extends.{Extends, KeepsSchools};
ghost use Rattle.adm_register.specs.Difference.{IsDifference};
ghost use Rattle.adm_commands.specs.Commands.{KeptByTypes};
ghost use Rattle.adm_commands.specs.Steps.{Decides, decision};

use crate::NotDone;
use crate::command_result::RowRefusal;
use crate::commands::evaluate;
use adm_register::{Difference, Register};
use adm_round::allotment_fits;
use adm_types::{Command, Reply};
use std::alloc::Global;

/// The register after the command, what it changed and its reply, or why it was not done. The
/// register before stays. What it costs grows with the tables that the command changes, of which the
/// pointers to their rows are copied; the others are shared.
pub fn propose(old: &Register, alloc: Global, command: Command) -> Result<Proposal, NotDone>
    ensures step { Decides old.now command (decision result) }
    ensures extends { IfOk result (λ proposal. Extends old.now proposal.register × WellFormed proposal.register) }
    ensures schools { IfOk result (λ proposal. KeepsSchools old.now proposal.register) }
    ensures change { IfOk result (λ proposal. IsDifference old.now proposal.register proposal.change) }
    ensures kept { KeptByTypes command }
{
    allotment_fits();
    match evaluate(old.tables(), old.draws_so_far(), alloc, command)? {
        Err(RowRefusal { refusal, row }) => Err(NotDone::Refused { refusal, row }),
        Ok((whole, reply)) => {
            let (register, change) = old.changed(alloc, whole)?;
            Ok(Proposal {
                register,
                change,
                reply,
            })
        }
    }
}

/// The result of an accepted command.
#[derive(Drop)]
pub struct Proposal {
    pub register: Register,
    /// The rows by which it differs from the register before.
    pub change: Difference,
    pub reply: Reply,
}
