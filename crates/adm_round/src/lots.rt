// Which pairs of a school and a child have a lot drawn, and the lots with the numbers drawn.
ghost use Rattle.std.specs.Prelude.{◌≡◌, ◌++◌, IfOk, IfSome, is_some, length, map, nat_eq};
ghost use Rattle.adm_round.specs.Round.{pairs, lot_of_draw, lots_of};
ghost use Rattle.adm_round.specs.Lookups.{children_for};

use crate::applicants::{Applicant, Pair, Site};
use crate::wanting::children_by_school;
use adm_types::{ChildNo, Lot, SchoolCode};
use std::alloc::{AllocError, Global};
use std::collections::BTreeMap;

/// The pairs of the school and each of the children.
fn pairs_with(
    alloc: Global,
    school: SchoolCode,
    children: &[ChildNo],
) -> Result<Vec<Pair>, AllocError>
    ensures { IfOk result (λ found. found.items ≡ map (λ child. record { school = school; child = child }) children.now) }
{
    children
        .iter()
        .map(|child| Pair {
            school,
            child: *child,
        })
        .collect(alloc)
}

/// Adds the pairs of the school and each child that wants it.
fn add_pairs(
    alloc: Global,
    found: &mut Vec<Pair>,
    wanting: &BTreeMap<SchoolCode, Vec<ChildNo>>,
    school: SchoolCode,
) -> Result<(), AllocError>
    ensures { IfOk result (λ _. found.new.items ≡ found.old.items ++ map (λ child. record { school = school; child = child }) (children_for wanting.now school)) }
{
    if let Some(children) = wanting.get(&school) {
        let more = pairs_with(alloc, school, children.as_slice())?;
        found.extend_from_slice(&more)?;
    }
    Ok(())
}

/// The pairs of a school and a child that wants it, in the order of the sites and then of the
/// applicants. They take memory for each pair. The cost grows with the list entries, times the
/// logarithm of the schools that are wanted.
pub fn wanted_pairs(
    alloc: Global,
    sites: &[Site],
    applicants: &[Applicant],
) -> Result<Vec<Pair>, AllocError>
    ensures { IfOk result (λ found. found.items ≡ pairs sites.now applicants.now) }
{
    let wanting = children_by_school(alloc, applicants)?;
    let mut found = Vec::new(alloc);
    for index in 0..sites.len() {
        let site = &sites[index];
        let school = site.school.as_ref().code;
        add_pairs(alloc, &mut found, &wanting, school)?;
    }
    Ok(found)
}

/// The lot of a pair, where this number is drawn for it.
fn lot_of(pair: Pair, number: u32) -> Lot
    ensures { result ≡ lot_of_draw (pair, number) }
{
    Lot {
        school: pair.school,
        child: pair.child,
        lot: number,
    }
}

/// The lots of as many pairs as numbers, in turn.
fn lots_in_turn(alloc: Global, pairs: &[Pair], numbers: &[u32]) -> Result<Vec<Lot>, AllocError>
    requires { length numbers.now ≡ length pairs.now }
    ensures { IfOk result (λ lots. lots.items ≡ lots_of pairs.now numbers.now) }
{
    pairs
        .iter()
        .zip(numbers)
        .map(|(pair, number)| lot_of(*pair, *number))
        .collect(alloc)
}

/// The lots of the pairs, each with the number drawn for it: the first number is the first pair's.
/// It is None exactly where there is not one number for each pair. They take memory for each lot,
/// and time for each.
pub fn assign_lots(
    alloc: Global,
    pairs: Vec<Pair>,
    numbers: &[u32],
) -> Result<Option<Vec<Lot>>, AllocError>
    ensures some { IfOk result (λ found. is_some found ≡ nat_eq (length numbers.now) (length pairs.items)) }
    ensures lots { IfOk result (λ found. IfSome found (λ lots. lots.items ≡ lots_of pairs.items numbers.now)) }
{
    if numbers.len() != pairs.len() {
        return Ok(None);
    }
    let lots = lots_in_turn(alloc, &pairs, numbers)?;
    Ok(Some(lots))
}
