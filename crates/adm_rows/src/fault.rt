// Why a register was not opened.
use adm_register::RowsFault;

/// Why a register was not opened.
#[derive(Clone, Copy, Debug, PartialEq, Eq)]
pub enum OpenFault {
    /// There is no table `meta`, or it has no row.
    NotOurs = 1,
    /// The row of `meta` names another version than 1, 2 and 3.
    Version = 2,
    /// A table is missing or made otherwise, one too many is there, or the rows are no register's.
    BadRow = 3,
    /// The store failed.
    Disk = 4,
    Memory = 5,
}

impl From<RowsFault> for OpenFault {
    ghost use Rattle.std.specs.Prelude.{◌≡◌};
    ghost use Rattle.adm_rows.specs.Faults.{of_rows};

    ghost from_gives = { λ fault outer. outer ≡ of_rows fault };

    fn from(fault: RowsFault) -> OpenFault {
        match fault {
            RowsFault::BadRow => OpenFault::BadRow,
            RowsFault::Memory => OpenFault::Memory,
        }
    }
}
