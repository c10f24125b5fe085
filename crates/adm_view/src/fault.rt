// Why there is no text of a draw.
ghost use Rattle.std.specs.Prelude.{◌≡◌};
ghost use Rattle.adm_view.specs.declared.fault.ViewFault.TheVariants.{Memory};

use std::alloc::AllocError;
use thiserror::Error;

/// Why there is no text of a draw.
#[derive(Clone, Copy, Debug, PartialEq, Eq, Error)]
pub enum ViewFault {
    /// There is no draw of this number.
    #[error("NoDraw")]
    NoDraw = 1,
    /// Memory ran out before the text was made.
    #[error("Memory")]
    Memory = 2,
}

impl From<AllocError> for ViewFault {
    ghost from_gives = { λ _ fault. fault ≡ Memory };

    fn from(_error: AllocError) -> ViewFault {
        ViewFault::Memory
    }
}
