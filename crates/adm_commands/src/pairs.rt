// For whom lots are drawn, in their order.
ghost use Rattle.std.specs.Prelude.{◌≡◌, IfOk, length, map, nat_eq, true};
ghost use Rattle.adm_round.specs.Round.{lots_of};
ghost use Rattle.adm_commands.specs.Commands.Round.{round_applicants, sites, round_pairs};
ghost use Rattle.adm_commands.specs.Commands.Fill.{fill_pairs};

use crate::applicants::{round_applicants, sites};
use adm_register::{Register, Tables};
use adm_round::{Applicant, Pair, Site, assign_lots, wanted_pairs};
use adm_table::Shared;
use adm_types::{Child, Lot, SchoolCode};
use std::alloc::{AllocError, Global};

/// The schools of the next round, who takes part in it, and for whom its lots are drawn.
#[derive(Drop)]
pub(crate) struct RoundPairs {
    pub(crate) sites: Vec<Site>,
    pub(crate) applicants: Vec<Applicant>,
    pub(crate) pairs: Vec<Pair>,
}

/// They are worked out by the same steps whether a round is held or its pairs are queried.
pub(crate) fn round_pairs_of(old: &Tables, alloc: Global) -> Result<RoundPairs, AllocError>
    ensures sites { IfOk result (λ wants. wants.sites.items ≡ sites old.now) }
    ensures applicants { IfOk result (λ wants. wants.applicants.items ≡ round_applicants old.now) }
    ensures pairs { IfOk result (λ wants. wants.pairs.items ≡ round_pairs old.now) }
{
    let sites = sites(old, alloc)?;
    let applicants = round_applicants(old, alloc)?;
    let pairs = wanted_pairs(alloc, &sites, &applicants)?;
    Ok(RoundPairs {
        sites,
        applicants,
        pairs,
    })
}

/// For whom lots are drawn in the next round on the register: each school with each child that takes
/// part and wants it, by the schools' codes and then by the children's numbers. A round counts its
/// lots by these pairs, and its first lot is the first pair's. The register stays as it is.
///
/// It takes memory for each site, list entry and pair, and while they are made for each application
/// and place. What it costs grows with the list entries of those who take part, times their
/// logarithm, with the applications and the places, and with the schools times the places of plans.
pub fn round_pairs(register: &Register, alloc: Global) -> Result<Vec<Pair>, AllocError>
    ensures { IfOk result (λ pairs. pairs.items ≡ round_pairs register.now) }
{
    let wants = round_pairs_of(register.tables(), alloc)?;
    Ok(wants.pairs)
}

/// The school with each of the children.
pub(crate) fn pairs_for(
    alloc: Global,
    school: SchoolCode,
    children: &[Shared<Child>],
) -> Result<Vec<Pair>, AllocError>
    ensures { IfOk result (λ pairs. pairs.items ≡ map (λ child. record { school = school; child = child.no }) children.now) }
{
    children
        .iter()
        .map(|child| Pair {
            school,
            child: child.as_ref().no,
        })
        .collect(alloc)
}

/// The lots of the pairs, each with the number drawn for it; none where there is not one number for
/// each pair.
pub(crate) fn drawn_lots(
    alloc: Global,
    pairs: Vec<Pair>,
    numbers: &[u32],
) -> Result<Vec<Lot>, AllocError>
    ensures { IfOk result (λ lots. (nat_eq (length numbers.now) (length pairs.items) ≡ true → lots.items ≡ lots_of pairs.items numbers.now)) }
{
    match assign_lots(alloc, pairs, numbers)? {
        Some(lots) => Ok(lots),
        None => Ok(Vec::new(alloc)),
    }
}

/// For whom lots are drawn in a fill at the school: the school with each child that waits there, by
/// the children's numbers; none where there is no such school. A fill counts its lots by these pairs,
/// and its first lot is the first pair's. They are the same whether or not a fill would be refused
/// now. The register stays as it is.
///
/// It takes memory for each pair, and while they are made for a pointer to each application; time for
/// each application.
pub fn fill_pairs(
    register: &Register,
    alloc: Global,
    school: SchoolCode,
) -> Result<Vec<Pair>, AllocError>
    ensures { IfOk result (λ pairs. pairs.items ≡ fill_pairs register.now school) }
{
    let waiting = register.tables().waiting_at(alloc, school)?;
    pairs_for(alloc, school, &waiting)
}
