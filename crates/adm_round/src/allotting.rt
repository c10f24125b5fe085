// The allotment of a round: the best stable allocation of its problem.
ghost use Rattle.std.specs.Prelude.{◌≡◌, IfOk, All, map};
ghost use Rattle.std.specs.List.{AllZip};
ghost use Rattle.adm_round.specs.Round.{IsPosed, number_of};
ghost use Rattle.adm_round.specs.Ranks.{market_of_round};
ghost use Rattle.adm_round.specs.Outcomes.{AreBest, HasListedSchool, HasRoom};

use crate::applicants::{Applicant, Site};
use crate::outcomes::outcomes_of;
use crate::problems::problem_of;
use adm_match::offers;
use adm_types::{Lot, Outcome};
use std::alloc::{AllocError, Global};

/// The outcome of the round for each applicant, in their order, by the best stable allocation of
/// its problem. Where it is an error, memory ran out. It takes memory for each site, list entry
/// and lot, and the cost grows with them, times their logarithm.
pub fn allot(
    alloc: Global,
    sites: &[Site],
    applicants: &[Applicant],
    lots: &[Lot],
) -> Result<Vec<Outcome>, AllocError>
    requires posed { IsPosed sites.now applicants.now lots.now }
    ensures best { IfOk result (λ outcomes. AreBest (market_of_round sites.now applicants.now lots.now) applicants.now outcomes.items) }
    ensures listed { IfOk result (λ outcomes. AllZip HasListedSchool applicants.now outcomes.items) }
    ensures room { IfOk result (λ outcomes. All (HasRoom outcomes.items) sites.now) }
    ensures children { IfOk result (λ outcomes. map (λ outcome. outcome.child) outcomes.items ≡ map number_of applicants.now) }
{
    let problem = problem_of(alloc, sites, applicants, lots)?;
    let offers = offers(alloc, &problem)?;
    outcomes_of(alloc, &offers, applicants)
}
