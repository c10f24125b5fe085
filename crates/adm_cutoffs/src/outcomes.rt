// The outcome of each child of a draw.
ghost use Rattle.std.specs.Prelude.{◌≡◌, IfOk};
ghost use Rattle.adm_cutoffs.specs.Cutoffs.{is_new_place};
ghost use Rattle.adm_cutoffs.specs.Lookups.{HasOutcomes};

use adm_types::{ChildNo, Outcome, SchoolCode};
use std::alloc::{AllocError, Global};
use std::collections::BTreeMap;

/// The outcome of each child of a draw.
pub(crate) type OutcomesByChild = BTreeMap<ChildNo, Outcome>;

/// The outcomes by child. They go in from the last one on, so that the first one of a child stays.
pub(crate) fn outcomes_by_child(
    alloc: Global,
    outcomes: &[Outcome],
) -> Result<OutcomesByChild, AllocError>
    ensures { IfOk result (HasOutcomes outcomes.now) }
{
    let mut by_child = BTreeMap::new(alloc);
    for back in 0..outcomes.len() {
        let outcome = outcomes[outcomes.len() - 1 - back];
        by_child.insert(outcome.child, outcome)?;
    }
    Ok(by_child)
}

/// Whether an outcome is a place at the school that its child did not have before.
pub(crate) fn is_new_place(outcome: Option<Outcome>, school: SchoolCode) -> bool
    ensures { result ≡ is_new_place school outcome }
{
    match outcome {
        None => false,
        Some(outcome) => outcome.fresh && outcome.school == Some(school),
    }
}
