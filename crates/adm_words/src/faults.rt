// Why arguments are not read, and what is printed then.
ghost use Rattle.std.specs.Prelude.{◌≡◌, IfOk, string_bytes};
ghost use Rattle.adm_words.specs.Lines.{IsFaultText};
ghost use Rattle.adm_words.specs.declared.faults.WordsFault.TheVariants.{Memory};

use std::alloc::{AllocError, AllocFailed, Global};
use thiserror::Error;

/// Why the arguments are not read.
#[derive(Debug, Drop, Error)]
pub enum WordsFault {
    /// `clap` refuses the arguments, or they request help: this is its text.
    #[error("{0}")]
    Usage(clap::Error),
    /// A holiday is no day.
    #[error("BadDate")]
    BadDate,
    /// A child's number, a school's code, or the number of a round or a draw is none.
    #[error("BadWord")]
    BadWord,
    /// Memory ran out.
    #[error("Memory")]
    Memory,
}

impl From<AllocError> for WordsFault {
    ghost from_gives = { λ _ fault. fault ≡ Memory };

    fn from(_error: AllocError) -> WordsFault {
        WordsFault::Memory
    }
}

impl<T: Drop> From<AllocFailed<T>> for WordsFault {
    ghost from_gives = { λ _ fault. fault ≡ Memory };

    fn from(_error: AllocFailed<T>) -> WordsFault {
        WordsFault::Memory
    }
}

/// What is printed on the standard error: the text of `clap`, or `fault: `, the error's name and
/// LF. The `Err` means out of memory.
pub fn fault_text(alloc: Global, fault: &WordsFault) -> Result<String, AllocError>
    ensures { IfOk result (λ text. IsFaultText fault.now (string_bytes text)) }
{
    match fault {
        WordsFault::Usage(error) => format!(in alloc; "{error}"),
        WordsFault::BadDate => String::from_str(alloc, "fault: BadDate\n"),
        WordsFault::BadWord => String::from_str(alloc, "fault: BadWord\n"),
        WordsFault::Memory => String::from_str(alloc, "fault: Memory\n"),
    }
}
