// How a child's values are written.
ghost use Rattle.std.specs.Prelude.{◌≡◌, IfOk};
ghost use Rattle.adm_register.specs.Change.{change_of_child};

use crate::one_row::one;
use adm_register::Difference;
use adm_table::Shared;
use adm_types::Child;
use std::alloc::{AllocError, Global};

/// The child's data are written, in place of those that were there.
pub(crate) fn put_child(alloc: Global, child: Child) -> Result<Difference, AllocError>
    ensures { IfOk result (λ change. change ≡ change_of_child child) }
{
    let row = Shared::new(alloc, child)?;
    let mut change = Difference::none(alloc);
    change.children = one(alloc, row)?;
    Ok(change)
}
