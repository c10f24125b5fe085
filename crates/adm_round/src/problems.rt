// The problem of allocation that a round poses.
ghost use Rattle.std.specs.Prelude.{◌≡◌, ◌++◌, ◌∷◌, [], IfOk, IsTrue, true, map, All, option_map};
ghost use Rattle.std.specs.Option.{option_to_list};
ghost use Rattle.adm_types.specs.Limits.{is_school_in_range, is_child_in_range};
ghost use Rattle.adm_round.specs.Round.{IsPosed};
ghost use Rattle.adm_round.specs.Ranks.{wish_at, wishes_for, candidate_of, seats_of, market_of_round};
ghost use Rattle.adm_round.specs.Lookups.{site_in, lot_in};

use crate::applicants::{Applicant, Site};
use crate::round_index::{RoundIndex, lot_in, round_index_of, site_in};
use adm_match::{Entrant, Problem, Seats, Wish};
use adm_rank::key;
use adm_types::{Child, Lot, SchoolCode};
use std::alloc::{AllocError, Global};

/// The site's school, with the key by which the child ranks there.
fn wish_at(round_index: &RoundIndex, child: &Child, site: &Site) -> Wish
    requires school { IsTrue (is_school_in_range site.now.school) }
    requires child { IsTrue (is_child_in_range child.now) }
    ensures { result ≡ wish_at (lot_in round_index.now) child.now site.now }
{
    let school = site.school.as_ref();
    let lot = lot_in(round_index, school.code, child.no);
    Wish {
        school: school.code,
        key: key(school, child, lot),
    }
}

/// Adds the school with the child's key there.
fn add_wish(
    wishes: &mut Vec<Wish>,
    sites: &[Site],
    round_index: &RoundIndex,
    child: &Child,
    school: SchoolCode,
) -> Result<(), AllocError>
    requires schools { All (λ site. is_school_in_range site.school ≡ true) sites.now }
    requires child { IsTrue (is_child_in_range child.now) }
    ensures { IfOk result (λ _. wishes.new.items ≡ wishes.old.items ++ wishes_for (site_in sites.now round_index.now) (lot_in round_index.now) child.now (school ∷ [])) }
{
    if let Some(site) = site_in(sites, round_index, school) {
        wishes.push(wish_at(round_index, child, site))?;
    }
    Ok(())
}

/// Adds the schools, each with the child's key there.
fn add_wishes(
    wishes: &mut Vec<Wish>,
    sites: &[Site],
    round_index: &RoundIndex,
    child: &Child,
    schools: &[SchoolCode],
) -> Result<(), AllocError>
    requires schools { All (λ site. is_school_in_range site.school ≡ true) sites.now }
    requires child { IsTrue (is_child_in_range child.now) }
    ensures { IfOk result (λ _. wishes.new.items ≡ wishes.old.items ++ wishes_for (site_in sites.now round_index.now) (lot_in round_index.now) child.now schools.now) }
{
    for index in 0..schools.len() {
        add_wish(wishes, sites, round_index, child, schools[index])?;
    }
    Ok(())
}

/// Adds the school of which the child is a tenant, if any, with its key there.
fn add_own(
    wishes: &mut Vec<Wish>,
    sites: &[Site],
    round_index: &RoundIndex,
    child: &Child,
    own: Option<SchoolCode>,
) -> Result<(), AllocError>
    requires schools { All (λ site. is_school_in_range site.school ≡ true) sites.now }
    requires child { IsTrue (is_child_in_range child.now) }
    ensures { IfOk result (λ _. wishes.new.items ≡ wishes.old.items ++ wishes_for (site_in sites.now round_index.now) (lot_in round_index.now) child.now (option_to_list own)) }
{
    match own {
        Some(school) => add_wish(wishes, sites, round_index, child, school),
        None => Ok(()),
    }
}

/// The applicant, with the keys by which it ranks at the schools of its list.
fn entrant_of(
    alloc: Global,
    sites: &[Site],
    round_index: &RoundIndex,
    applicant: &Applicant,
) -> Result<Entrant, AllocError>
    requires schools { All (λ site. is_school_in_range site.school ≡ true) sites.now }
    requires child { IsTrue (is_child_in_range applicant.now.child) }
    ensures { IfOk result (λ entrant. entrant ≡ candidate_of (site_in sites.now round_index.now) (lot_in round_index.now) applicant.now) }
{
    let child = applicant.child.as_ref();
    let wanted = applicant.wanted.as_slice();
    let mut list = Vec::new(alloc);
    add_wishes(&mut list, sites, round_index, child, wanted)?;
    add_own(&mut list, sites, round_index, child, applicant.own)?;
    Ok(Entrant {
        child: child.no,
        list,
        tenant: applicant.own,
    })
}

/// The applicants, each with the keys by which it ranks at the schools of its list.
fn entrants_of(
    alloc: Global,
    sites: &[Site],
    round_index: &RoundIndex,
    applicants: &[Applicant],
) -> Result<Vec<Entrant>, AllocError>
    requires schools { All (λ site. is_school_in_range site.school ≡ true) sites.now }
    requires children { All (λ applicant. is_child_in_range applicant.child ≡ true) applicants.now }
    ensures { IfOk result (λ entrants. entrants.items ≡ map (candidate_of (site_in sites.now round_index.now) (lot_in round_index.now)) applicants.now) }
{
    let mut entrants = Vec::new(alloc);
    for index in 0..applicants.len() {
        let applicant = &applicants[index];
        entrants.push(entrant_of(alloc, sites, round_index, applicant)?)?;
    }
    Ok(entrants)
}

fn seats_of(site: &Site) -> Seats
    ensures { result ≡ seats_of site.now }
{
    Seats {
        code: site.school.as_ref().code,
        quota: site.quota,
    }
}

/// The seats of the sites.
fn all_seats(alloc: Global, sites: &[Site]) -> Result<Vec<Seats>, AllocError>
    ensures { IfOk result (λ seats. seats.items ≡ map seats_of sites.now) }
{
    sites.iter().map(|site| seats_of(site)).collect(alloc)
}

/// The problem of the round, which is well-formed. It takes memory for each site, list entry and
/// lot, and the cost grows with them, times their logarithm.
pub fn problem_of(
    alloc: Global,
    sites: &[Site],
    applicants: &[Applicant],
    lots: &[Lot],
) -> Result<Problem, AllocError>
    requires { IsPosed sites.now applicants.now lots.now }
    ensures { IfOk result (λ problem. problem ≡ market_of_round sites.now applicants.now lots.now) }
{
    let round_index = round_index_of(alloc, sites, lots)?;
    let entrants = entrants_of(alloc, sites, &round_index, applicants)?;
    let seats = all_seats(alloc, sites)?;
    Problem::posed(alloc, entrants, seats)
}
