// Why a file has no rows for an import.
ghost use Rattle.std.specs.Prelude.{◌≡◌};
ghost use Rattle.adm_csv.specs.declared.fault.Fault.TheVariants.{Memory};

use std::alloc::{AllocError, AllocFailed};
use thiserror::Error;

/// What is wrong with a row. The tests of a row come in the order TooManyRows; FieldCount; and then
/// those of its fields from left to right.
#[derive(Clone, Copy, Debug, PartialEq, Eq, Error)]
pub enum Fault {
    /// The first record is missing, or is not the header.
    #[error("Header")]
    Header = 1,
    /// The row has more fields than the header, or fewer.
    #[error("FieldCount")]
    FieldCount = 2,
    /// A field is not the number, or the list of numbers, that it should be.
    #[error("BadNumber")]
    BadNumber = 3,
    /// A field is no day.
    #[error("BadDate")]
    BadDate = 4,
    /// A field is no UTF-8 text, neither `yes` nor `no`, or no list of codes.
    #[error("BadText")]
    BadText = 5,
    /// It is one row too many.
    #[error("TooManyRows")]
    TooManyRows = 6,
    /// The reader failed.
    #[error("Read")]
    Read = 7,
    /// Memory ran out before the answer was known.
    #[error("Memory")]
    Memory = 8,
}

/// The first error of a file, and the number of its row: from 1, and 0 for the header.
#[derive(Clone, Copy, Debug, PartialEq, Eq, Error)]
#[error("row {row}: {fault}")]
pub struct RowFault {
    /// The number of the row.
    pub row: u64,
    /// What is wrong with it.
    pub fault: Fault,
}

impl From<AllocError> for Fault {
    ghost from_gives = { λ _ fault. fault ≡ Memory };

    fn from(_error: AllocError) -> Fault {
        Fault::Memory
    }
}

impl<T: Drop> From<AllocFailed<T>> for Fault {
    ghost from_gives = { λ _ fault. fault ≡ Memory };

    fn from(_error: AllocFailed<T>) -> Fault {
        Fault::Memory
    }
}
