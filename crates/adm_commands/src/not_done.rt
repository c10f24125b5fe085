// Why a command was not done.
use adm_types::Refusal;
use std::alloc::AllocError;

/// Why a command was not done. The register is as it was.
#[derive(Clone, Copy, PartialEq, Eq, Debug)]
pub enum NotDone {
    /// By the first test that fails. The row is that of an import, and else 0.
    Refused { refusal: Refusal, row: u64 },
    Memory,
}

impl From<AllocError> for NotDone {
    ghost use Rattle.std.specs.Prelude.{◌≡◌};
    ghost use Rattle.adm_commands.specs.declared.not_done.NotDone.{NotDone};

    ghost from_gives = { λ _ not_done. not_done ≡ NotDone.Memory };

    fn from(_: AllocError) -> NotDone {
        NotDone::Memory
    }
}
