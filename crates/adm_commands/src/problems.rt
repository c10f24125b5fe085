// The problem of the next round.
ghost use Rattle.std.specs.Prelude.{◌≡◌, ◌⊎◌, true, None, Some, IfOk, IfErr, OnOk};
ghost use Rattle.adm_commands.specs.Commands.Round.{round_applicants, sites, round_lots, round_market, is_lot_count, are_lots_apart};
ghost use Rattle.adm_commands.specs.Problem.{lots_fault};
ghost use Rattle.adm_commands.specs.declared.problems.DrawFault.TheVariants.{Memory};

use crate::pairs::{RoundPairs, drawn_lots, round_pairs_of};
use adm_draws::has_repeated_lot;
use adm_match::Problem;
use adm_register::{Register, Tables};
use adm_round::{Applicant, Site, problem_of};
use adm_types::Lot;
use std::alloc::{AllocError, Global};

/// Why lots pose no problem of the next round.
#[derive(Clone, Copy, Debug, PartialEq, Eq)]
pub enum DrawFault {
    /// There is not one lot for each pair of a school and a child that wants it.
    LotCount = 1,
    /// Two lots at one school are equal.
    LotsRepeated = 2,
    /// Memory ran out.
    Memory = 3,
}

impl From<AllocError> for DrawFault {
    ghost from_gives = { λ _ fault. fault ≡ Memory };

    fn from(_: AllocError) -> DrawFault {
        DrawFault::Memory
    }
}

/// What the next round's problem is made of, with numbers for its lots.
#[derive(Drop)]
pub(crate) struct RoundInputs {
    pub(crate) sites: Vec<Site>,
    pub(crate) applicants: Vec<Applicant>,
    /// The lots; none where there is not one number for each pair.
    pub(crate) drawn: Vec<Lot>,
    /// There is one number for each pair.
    pub(crate) counted: bool,
    /// At no school two of the lots are equal.
    pub(crate) apart: bool,
}

/// The schools, who takes part, and the lots, with what the tests of lots say. They take memory for
/// each site, list entry and lot, and while they are made for each application and place. What they
/// cost grows with the list entries of those who take part and with the lots, times their logarithm,
/// with the applications and the places, and with the schools times the places of plans.
pub(crate) fn round_inputs_of(
    old: &Tables,
    alloc: Global,
    lots: &[u32],
) -> Result<RoundInputs, AllocError>
    ensures sites { IfOk result (λ parts. parts.sites.items ≡ sites old.now) }
    ensures applicants { IfOk result (λ parts. parts.applicants.items ≡ round_applicants old.now) }
    ensures counted { IfOk result (λ parts. parts.counted ≡ is_lot_count old.now lots.now) }
    ensures drawn { IfOk result (λ parts. (is_lot_count old.now lots.now ≡ true → parts.drawn.items ≡ round_lots old.now lots.now)) }
    ensures apart { IfOk result (λ parts. (is_lot_count old.now lots.now ≡ true → parts.apart ≡ are_lots_apart old.now lots.now)) }
{
    let RoundPairs {
        sites,
        applicants,
        pairs,
    } = round_pairs_of(old, alloc)?;
    let counted = lots.len() == pairs.len();
    let drawn = drawn_lots(alloc, pairs, lots)?;
    let apart = !has_repeated_lot(alloc, &drawn)?;
    Ok(RoundInputs {
        sites,
        applicants,
        drawn,
        counted,
        apart,
    })
}

/// The problem that the next round on the register poses where these are its lots, in the order of
/// the schools' codes and then of the children's numbers. The register stays as it is. It takes
/// memory for each site, list entry and lot, and while it is made for each application and place.
/// What it costs grows with the list entries of those who take part and with the lots, times their
/// logarithm, with the applications and the places, and with the schools times the places of plans.
pub fn problem(old: &Register, alloc: Global, lots: &[u32]) -> Result<Problem, DrawFault>
    ensures problem { IfOk result (λ problem. problem ≡ round_market old.now lots.now) }
    ensures lots { OnOk result (lots_fault old.now lots.now ≡ None) }
    ensures fault { IfErr result (λ fault. (lots_fault old.now lots.now ≡ Some fault) ⊎ (fault ≡ Memory)) }
{
    let RoundInputs {
        sites,
        applicants,
        drawn,
        counted,
        apart,
    } = round_inputs_of(old.tables(), alloc, lots)?;
    if !counted {
        return Err(DrawFault::LotCount);
    }
    if !apart {
        return Err(DrawFault::LotsRepeated);
    }
    Ok(problem_of(alloc, &sites, &applicants, &drawn)?)
}
