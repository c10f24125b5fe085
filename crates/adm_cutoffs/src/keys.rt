// The key by which the child of a lot ranks at the lot's school.
ghost use Rattle.std.specs.Prelude.{◌≡◌};
ghost use Rattle.adm_cutoffs.specs.Cutoffs.{key_by_lot, later};

use adm_rank::{RankKey, key};
use adm_register::Register;
use adm_types::Lot;

/// The key of the lot's child at its school, as the register has both.
pub(crate) fn key_by_lot(register: &Register, lot: &Lot) -> Option<RankKey>
    ensures { result ≡ key_by_lot register.now lot.now }
{
    // Read only so that the check sees that the rows are a register's.
    let _tables = register.tables();
    let Some(school) = register.school(lot.school) else {
        return None;
    };
    let Some(child) = register.child(lot.child) else {
        return None;
    };
    Some(key(school, child, lot.lot))
}

/// The key that ranks later, of the last one so far and the next.
pub(crate) fn later(last: Option<RankKey>, next: RankKey) -> RankKey
    ensures { result ≡ later last next }
{
    match last {
        Some(last) if !last.ranks_before(next) => last,
        _ => next,
    }
}
