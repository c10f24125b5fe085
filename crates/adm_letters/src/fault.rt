// Why there is no such letter, list, report or list of pairs.
ghost use Rattle.std.specs.Prelude.{◌≡◌};
ghost use Rattle.adm_letters.specs.declared.fault.LetterFault.TheVariants.{Memory};
ghost use Rattle.adm_letters.specs.Answers.{text_fault_of};

use adm_register::ListFault;
use std::alloc::AllocError;
use thiserror::Error;

/// Why there is no such text.
#[derive(Clone, Copy, Debug, PartialEq, Eq, Error)]
pub enum LetterFault {
    /// There is no child of this number.
    #[error("UnknownChild")]
    UnknownChild = 1,
    /// There is no school of this code.
    #[error("UnknownSchool")]
    UnknownSchool = 2,
    /// There was no round of this number.
    #[error("NoRound")]
    NoRound = 3,
    /// Memory ran out before the text was made.
    #[error("Memory")]
    Memory = 4,
}

impl From<AllocError> for LetterFault {
    ghost from_gives = { λ _ fault. fault ≡ Memory };

    fn from(_error: AllocError) -> LetterFault {
        LetterFault::Memory
    }
}

impl From<ListFault> for LetterFault {
    ghost from_gives = { λ list fault. fault ≡ text_fault_of list };

    fn from(fault: ListFault) -> LetterFault {
        match fault {
            ListFault::UnknownSchool => LetterFault::UnknownSchool,
            ListFault::Memory => LetterFault::Memory,
        }
    }
}
