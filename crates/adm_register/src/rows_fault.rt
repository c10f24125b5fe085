// Why rows are no register's.
use std::alloc::AllocError;

/// Why there is no register of these rows.
#[derive(Clone, Copy, PartialEq, Eq, Debug)]
pub enum RowsFault {
    /// The rows are no register's: two have one key, or a value is out of its limits.
    BadRow = 1,
    Memory = 2,
}

impl From<AllocError> for RowsFault {
    ghost use Rattle.std.specs.Prelude.{◌≡◌};
    ghost use Rattle.adm_register.specs.declared.rows_fault.RowsFault.{RowsFault};

    ghost from_gives = { λ _ fault. fault ≡ RowsFault.Memory };

    fn from(_: AllocError) -> RowsFault {
        RowsFault::Memory
    }
}
