// Each refusal of a draw, and why.
ghost use Rattle.std.specs.Prelude.{◌≡◌, IfOk};
ghost use Rattle.std.specs.List.{filter_map};
ghost use Rattle.std.specs.Option.{option_copied};
ghost use Rattle.adm_types.specs.Limits.{is_listed};
ghost use Rattle.adm_cutoffs.specs.Cutoffs.{above, wants_more, refusal_by_lot};
ghost use Rattle.adm_cutoffs.specs.Lookups.{HasOutcomes, HasLastKeys, refusal_in};

use crate::Reason;
use crate::cutoffs::LastKeys;
use crate::keys::key_by_lot;
use crate::outcomes::OutcomesByChild;
use crate::reasons::reason_beside;
use adm_register::Register;
use adm_types::{ChildNo, Lot, Outcome, SchoolCode};
use std::alloc::{AllocError, Global};

/// The refusal of a child at a school that it wants more than what it has.
#[derive(Clone, Copy, Debug, PartialEq, Eq)]
pub struct Refusal {
    pub child: ChildNo,
    pub school: SchoolCode,
    /// What decided it; none where, by the data of now, the child does not rank after the last one
    /// that the school took in.
    pub by: Option<Reason>,
}

/// The refusals of these lots, in their order.
pub(crate) fn refusals(
    alloc: Global,
    register: &Register,
    by_child: &OutcomesByChild,
    keys: &LastKeys,
    lots: &[Lot],
) -> Result<Vec<Refusal>, AllocError>
    ensures { IfOk result (λ refusals. refusals.items ≡ filter_map (refusal_in register.now by_child.now keys.now) lots.now) }
{
    let mut refusals = Vec::new(alloc);
    for index in 0..lots.len() {
        let refusal = refusal_by_lot(register, by_child, keys, lots[index]);
        if let Some(refusal) = refusal {
            refusals.push(refusal)?;
        }
    }
    Ok(refusals)
}

/// The refusal of the lot's child at its school, where it wants that more than what it has.
fn refusal_by_lot(
    register: &Register,
    by_child: &OutcomesByChild,
    keys: &LastKeys,
    lot: Lot,
) -> Option<Refusal>
    ensures { result ≡ refusal_in register.now by_child.now keys.now lot }
{
    let outcome = by_child.get(&lot.child).copied();
    if !wants_more(register, outcome, lot.school) {
        return None;
    }
    let last = keys.get(&lot.school).copied();
    let by = reason_beside(last, key_by_lot(register, &lot));
    Some(Refusal {
        child: lot.child,
        school: lot.school,
        by,
    })
}

/// Whether a child of this outcome, if it has one, wants the school more than what it has.
fn wants_more(register: &Register, outcome: Option<Outcome>, school: SchoolCode) -> bool
    ensures { result ≡ wants_more register.now outcome school }
{
    let Some(outcome) = outcome else {
        return false;
    };
    match register.application(outcome.child) {
        None => false,
        Some(application) => is_above(application.list.as_slice(), outcome.school, school),
    }
}

/// Whether the list has the school above what the child has.
fn is_above(list: &[SchoolCode], given: Option<SchoolCode>, school: SchoolCode) -> bool
    ensures { result ≡ is_listed (above given list.now) school }
{
    list.iter()
        .take_while(|code| given != Some(**code))
        .any(|code| *code == school)
}
