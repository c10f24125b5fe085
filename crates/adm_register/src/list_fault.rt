// Why there is no waiting list.
use std::alloc::AllocError;

/// Why there is no waiting list of a school.
#[derive(Clone, Copy, PartialEq, Eq, Debug)]
pub enum ListFault {
    /// The register has no such school.
    UnknownSchool = 1,
    Memory = 2,
}

impl From<AllocError> for ListFault {
    ghost use Rattle.std.specs.Prelude.{◌≡◌};
    ghost use Rattle.adm_register.specs.declared.list_fault.ListFault.{ListFault};

    ghost from_gives = { λ _ fault. fault ≡ ListFault.Memory };

    fn from(_: AllocError) -> ListFault {
        ListFault::Memory
    }
}
