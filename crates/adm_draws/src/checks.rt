// Whether a draw may be in a register.
ghost use Rattle.std.specs.Prelude.{◌≡◌, IfOk};
ghost use Rattle.std.specs.List.{list_all};
ghost use Rattle.adm_types.specs.Code.{has};
ghost use Rattle.adm_draws.specs.Draws.{is_draw, are_ordered, fresh_has_school, is_offered_at, is_round_or_fill};

use crate::order::rises;
use crate::repeats::has_repeated_lot;
use adm_types::{Draw, Outcome, SchoolCode};
use std::alloc::{AllocError, Global};

/// Whether the outcomes and lots are in order, no lot is repeated at a school, and the draw is that
/// of a round or of a fill. Memory grows with the lots, and time with the outcomes and with the
/// lots, times their logarithm.
pub fn is_draw(alloc: Global, draw: &Draw) -> Result<bool, AllocError>
    ensures { IfOk result (λ answer. answer ≡ is_draw draw.now) }
{
    if !are_ordered(draw) {
        return Ok(false);
    }
    if has_repeated_lot(alloc, draw.lots.as_slice())? {
        return Ok(false);
    }
    let outcomes = draw.outcomes.as_slice();
    Ok(all_fresh_at_school(outcomes) && is_round_or_fill(draw.round, draw.school, outcomes))
}

/// Whether the outcomes are in order, and the lots.
fn are_ordered(draw: &Draw) -> bool
    ensures { result ≡ are_ordered draw.now }
{
    rises(draw.outcomes.as_slice()) && rises(draw.lots.as_slice())
}

/// Whether each outcome that is fresh has a school.
fn all_fresh_at_school(outcomes: &[Outcome]) -> bool
    ensures { result ≡ list_all fresh_has_school outcomes.now }
{
    outcomes
        .iter()
        .all(|outcome| outcome.school.is_some() || !outcome.fresh)
}

/// Whether a round has no school, and a fill one outcome at its school.
fn is_round_or_fill(round: u32, school: Option<SchoolCode>, outcomes: &[Outcome]) -> bool
    ensures { result ≡ is_round_or_fill round school outcomes.now }
{
    match (school, outcomes) {
        (None, _) => round != 0,
        (Some(school), [outcome]) => round == 0 && is_offered_at(school, outcome),
        (Some(_), _) => false,
    }
}

/// Whether the child was allotted this school, where it was not before.
fn is_offered_at(school: SchoolCode, outcome: &Outcome) -> bool
    ensures { result ≡ is_offered_at school outcome.now }
{
    outcome.fresh && has(outcome.school, school)
}

/// Whether what a child has is that school.
fn has(allotted: Option<SchoolCode>, school: SchoolCode) -> bool
    ensures { result ≡ has allotted school }
{
    match allotted {
        None => false,
        Some(allotted) => allotted == school,
    }
}
