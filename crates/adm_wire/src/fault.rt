// Why bytes are no command.
ghost use Rattle.std.specs.Prelude.{◌≡◌};
ghost use Rattle.adm_wire.specs.declared.fault.WireFault.TheVariants.{Memory};

use std::alloc::{AllocError, AllocFailed};
use thiserror::Error;

/// Why the bytes are no command. The tests come in the order NotJson; WrongKind where the value is
/// no object; MissingField and WrongKind of `cmd`; UnknownCommand; MissingField and WrongKind of
/// each field in turn; ExtraField.
#[derive(Clone, Copy, Debug, PartialEq, Eq, Error)]
pub enum WireFault {
    /// The bytes are no JSON text.
    #[error("NotJson")]
    NotJson = 1,
    /// `cmd` names no command.
    #[error("UnknownCommand")]
    UnknownCommand = 2,
    /// A field of the command is missing.
    #[error("MissingField")]
    MissingField = 3,
    /// A field, or a member of its list, is of another kind; or the text is no object.
    #[error("WrongKind")]
    WrongKind = 4,
    /// There is a key that is none of the command's.
    #[error("ExtraField")]
    ExtraField = 5,
    /// Memory ran out before the answer was known.
    #[error("Memory")]
    Memory = 6,
}

impl From<AllocError> for WireFault {
    ghost from_gives = { λ _ fault. fault ≡ Memory };

    fn from(_error: AllocError) -> WireFault {
        WireFault::Memory
    }
}

impl<T: Drop> From<AllocFailed<T>> for WireFault {
    ghost from_gives = { λ _ fault. fault ≡ Memory };

    fn from(_error: AllocFailed<T>) -> WireFault {
        WireFault::Memory
    }
}
