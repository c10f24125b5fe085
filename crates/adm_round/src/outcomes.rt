// The outcome of a round for each of its children, and the counts of the outcomes.
ghost use Rattle.std.specs.Prelude.{◌≡◌, IfOk, count_by, is_none};
ghost use Rattle.adm_types.specs.Code.{has};
ghost use Rattle.adm_match.specs.Stability.{school_of};
ghost use Rattle.adm_round.specs.Outcomes.{outcome_of, outcomes_of, is_kept};
ghost use Rattle.adm_round.specs.Round.{number_of};

use crate::applicants::Applicant;
use adm_match::Offers;
use adm_types::{Outcome, SchoolCode};
use std::alloc::{AllocError, Global};

fn has(place: Option<SchoolCode>, school: SchoolCode) -> bool
    ensures { result ≡ has place school }
{
    match place {
        Some(other) => other == school,
        None => false,
    }
}

/// What the applicant is offered.
fn outcome_of(applicant: &Applicant, offers: &Offers) -> Outcome
    ensures { result ≡ outcome_of applicant.now (school_of offers.now (number_of applicant.now)) }
{
    let child = applicant.child.as_ref().no;
    match offers.of(child) {
        Some(school) => Outcome {
            child,
            school: Some(school),
            fresh: !has(applicant.own, school),
        },
        None => Outcome {
            child,
            school: None,
            fresh: false,
        },
    }
}

/// What the applicants are offered, in their order.
pub(crate) fn outcomes_of(
    alloc: Global,
    offers: &Offers,
    applicants: &[Applicant],
) -> Result<Vec<Outcome>, AllocError>
    ensures { IfOk result (λ outcomes. outcomes.items ≡ outcomes_of (school_of offers.now) applicants.now) }
{
    applicants
        .iter()
        .map(|applicant| outcome_of(applicant, offers))
        .collect(alloc)
}

/// How many children of a round have which outcome.
#[derive(Clone, Copy, Debug, PartialEq, Eq)]
pub struct Totals {
    /// Those with a school that is not their own of before.
    pub offers: usize,
    /// Those that keep the school that was their own.
    pub kept: usize,
    /// Those without a school.
    pub unplaced: usize,
}

fn is_kept(outcome: &Outcome) -> bool
    ensures { result ≡ is_kept outcome.now }
{
    outcome.school.is_some() && !outcome.fresh
}

fn count_fresh(outcomes: &[Outcome]) -> usize
    ensures { result ≡ count_by (λ outcome. outcome.fresh) outcomes.now }
{
    outcomes.iter().filter(|outcome| outcome.fresh).count()
}

fn count_kept(outcomes: &[Outcome]) -> usize
    ensures { result ≡ count_by is_kept outcomes.now }
{
    outcomes.iter().filter(|outcome| is_kept(outcome)).count()
}

fn count_unplaced(outcomes: &[Outcome]) -> usize
    ensures { result ≡ count_by (λ outcome. is_none outcome.school) outcomes.now }
{
    outcomes
        .iter()
        .filter(|outcome| outcome.school.is_none())
        .count()
}

/// How many of the outcomes are fresh, have a school and are not fresh, and have none. It takes no
/// memory, and time for each outcome.
pub fn counts(outcomes: &[Outcome]) -> Totals
    ensures offers { result.offers ≡ count_by (λ outcome. outcome.fresh) outcomes.now }
    ensures kept { result.kept ≡ count_by is_kept outcomes.now }
    ensures unplaced { result.unplaced ≡ count_by (λ outcome. is_none outcome.school) outcomes.now }
{
    Totals {
        offers: count_fresh(outcomes),
        kept: count_kept(outcomes),
        unplaced: count_unplaced(outcomes),
    }
}
