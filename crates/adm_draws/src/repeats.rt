// Whether two lots of a school are equal.
ghost use Rattle.std.specs.Prelude.{◌≡◌, map, IfOk};
ghost use Rattle.adm_types.specs.Lots.{repeats_lot};
ghost use Rattle.adm_draws.specs.Grouped.{drawn_lot};

use crate::keys::DrawnLot;
use crate::order::in_order;
use adm_types::Lot;
use std::alloc::{AllocError, Global};

/// Whether two lots at one school are equal. Memory grows with the lots, and time with the lots,
/// times their logarithm.
pub fn has_repeated_lot(alloc: Global, lots: &[Lot]) -> Result<bool, AllocError>
    ensures { IfOk result (λ repeated. repeated ≡ repeats_lot lots.now) }
{
    let drawn = drawn_lots(alloc, lots)?;
    let Some(_in_order) = in_order(drawn) else {
        return Ok(true);
    };
    Ok(false)
}

/// The lots without the children.
fn drawn_lots(alloc: Global, lots: &[Lot]) -> Result<Vec<DrawnLot>, AllocError>
    ensures { IfOk result (λ drawn. drawn.items ≡ map drawn_lot lots.now) }
{
    lots.iter()
        .map(|lot| DrawnLot {
            school: lot.school,
            lot: lot.lot,
        })
        .collect(alloc)
}
