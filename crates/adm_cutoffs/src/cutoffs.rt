// The cutoff of each school that took in a child.
ghost use Rattle.std.specs.Prelude.{◌≡◌, IfOk};
ghost use Rattle.std.specs.List.{filter_map};
ghost use Rattle.adm_cutoffs.specs.Lookups.{HasOutcomes, HasLastKeys, key_in, cutoff_in};

use crate::keys::{key_by_lot, later};
use crate::outcomes::{OutcomesByChild, is_new_place};
use adm_rank::RankKey;
use adm_register::Register;
use adm_table::Shared;
use adm_types::{Draw, Lot, School, SchoolCode};
use std::alloc::{AllocError, Global};
use std::collections::BTreeMap;

/// The cutoff of a school in a draw: the key of the last child that it took in.
#[derive(Clone, Copy, Debug, PartialEq, Eq)]
pub struct Cutoff {
    pub school: SchoolCode,
    pub key: RankKey,
}

/// The key of the last child that each school took in.
pub(crate) type LastKeys = BTreeMap<SchoolCode, RankKey>;

/// The key of the last child that each school took in. The cost grows with the lots, times the
/// logarithm of the outcomes and schools.
pub(crate) fn last_keys(
    alloc: Global,
    register: &Register,
    by_child: &OutcomesByChild,
    draw: &Draw,
) -> Result<LastKeys, AllocError>
    requires { HasOutcomes draw.now.outcomes by_child.now }
    ensures { IfOk result (HasLastKeys register.now draw.now.outcomes draw.now.lots) }
{
    let lots = draw.lots.as_slice();
    let mut keys = BTreeMap::new(alloc);
    for index in 0..lots.len() {
        let lot = lots[index];
        let key = key_taken_in(register, by_child, &lot);
        if let Some(key) = key {
            let last = later(keys.get(&lot.school).copied(), key);
            keys.insert(lot.school, last)?;
        }
    }
    Ok(keys)
}

/// The key of the lot's child, where it was taken in at the lot's school.
fn key_taken_in(register: &Register, by_child: &OutcomesByChild, lot: &Lot) -> Option<RankKey>
    ensures { result ≡ key_in register.now by_child.now lot.now }
{
    if is_new_place(by_child.get(&lot.child).copied(), lot.school) {
        key_by_lot(register, lot)
    } else {
        None
    }
}

/// The cutoffs of those of the schools that took in a child.
pub(crate) fn cutoffs(
    alloc: Global,
    keys: &LastKeys,
    schools: &[Shared<School>],
) -> Result<Vec<Cutoff>, AllocError>
    ensures { IfOk result (λ cutoffs. cutoffs.items ≡ filter_map (λ school. cutoff_in keys.now school.code) schools.now) }
{
    let mut cutoffs = Vec::new(alloc);
    for index in 0..schools.len() {
        let school = schools[index].as_ref().code;
        let cutoff = cutoff_in(keys, school);
        if let Some(cutoff) = cutoff {
            cutoffs.push(cutoff)?;
        }
    }
    Ok(cutoffs)
}

/// The cutoff of a school, where it took in a child.
fn cutoff_in(keys: &LastKeys, school: SchoolCode) -> Option<Cutoff>
    ensures { result ≡ cutoff_in keys.now school }
{
    match keys.get(&school) {
        None => None,
        Some(key) => Some(Cutoff { school, key: *key }),
    }
}
