// What is wrong with a problem: the tests of `Problem::new`, in their order.
ghost use Rattle.std.specs.Prelude.{◌≡◌, IfOk, bytes_eq, not, false, ℕ, List, map};
ghost use Rattle.std.specs.List.{list_any};
ghost use Rattle.std.specs.Cmp.Lexicographic.{slice_cmp};
ghost use Rattle.std.specs.Ordering.{nat_cmp};
ghost use Rattle.std.specs.BTreeSet.{contains};
ghost use Rattle.adm_match.specs.Market.{market_of, some_pair, same_code, same_school, same_child, is_not_last, share_rank, repeats_school, names_unknown, has_tenant_not_last, has_equal_rank, first_fault};

use crate::claims::all_claims;
use crate::problem::{BadProblem, Entrant, Seats, Wish};
use crate::repeats::has_repeat;
use adm_types::{ChildNo, SchoolCode};
use std::alloc::{AllocError, Global};
use std::collections::BTreeSet;

/// The codes of the seats, in their order.
fn seat_codes(alloc: Global, seats: &[Seats]) -> Result<Vec<SchoolCode>, AllocError>
    ensures { IfOk result (λ codes. codes.items ≡ map (λ seat. seat.code) seats.now) }
{
    seats.iter().map(|seat| seat.code).collect(alloc)
}

/// Whether a code is repeated among the seats.
fn seats_repeat(alloc: Global, seats: &[Seats]) -> Result<bool, AllocError>
    ensures { IfOk result (λ answer. answer ≡ some_pair same_code seats.now) }
{
    let codes = seat_codes(alloc, seats)?;
    has_repeat(alloc, &codes)
}

/// The schools of a list, in its order.
fn listed_schools(alloc: Global, list: &[Wish]) -> Result<Vec<SchoolCode>, AllocError>
    ensures { IfOk result (λ schools. schools.items ≡ map (λ wish. wish.school) list.now) }
{
    list.iter().map(|wish| wish.school).collect(alloc)
}

/// Whether a school is repeated on the list.
fn list_repeats(alloc: Global, list: &[Wish]) -> Result<bool, AllocError>
    ensures { IfOk result (λ answer. answer ≡ some_pair same_school list.now) }
{
    let schools = listed_schools(alloc, list)?;
    has_repeat(alloc, &schools)
}

/// Whether a school is repeated on some list.
fn some_list_repeats(alloc: Global, entrants: &[Entrant]) -> Result<bool, AllocError>
    ensures { IfOk result (λ answer. answer ≡ list_any (λ entrant. some_pair same_school entrant.list) entrants.now) }
{
    for index in 0..entrants.len() {
        let entrant = &entrants[index];
        if list_repeats(alloc, &entrant.list)? {
            return Ok(true);
        }
    }
    Ok(false)
}

/// The codes of the seats.
fn codes_of(alloc: Global, seats: &[Seats]) -> Result<BTreeSet<SchoolCode>, AllocError>
    ensures { IfOk result (λ codes. (code : List ℕ) → contains (slice_cmp nat_cmp) codes code ≡ list_any (λ seat. bytes_eq seat.code code) seats.now) }
{
    let mut codes = BTreeSet::new(alloc);
    for index in 0..seats.len() {
        let seat = seats[index];
        codes.insert(seat.code)?;
    }
    Ok(codes)
}

fn is_known(codes: &BTreeSet<SchoolCode>, school: SchoolCode) -> bool
    ensures { result ≡ contains (slice_cmp nat_cmp) codes.now school }
{
    codes.contains(&school)
}

fn list_names_unknown(list: &[Wish], codes: &BTreeSet<SchoolCode>) -> bool
    ensures { result ≡ list_any (λ wish. not (contains (slice_cmp nat_cmp) codes.now wish.school)) list.now }
{
    list.iter().any(|wish| !is_known(codes, wish.school))
}

fn wants_unknown(entrant: &Entrant, codes: &BTreeSet<SchoolCode>) -> bool
    ensures { result ≡ list_any (λ wish. not (contains (slice_cmp nat_cmp) codes.now wish.school)) entrant.now.list }
{
    list_names_unknown(&entrant.list, codes)
}

fn some_want_unknown(entrants: &[Entrant], codes: &BTreeSet<SchoolCode>) -> bool
    ensures { result ≡ list_any (λ entrant. list_any (λ wish. not (contains (slice_cmp nat_cmp) codes.now wish.school)) entrant.list) entrants.now }
{
    entrants.iter().any(|entrant| wants_unknown(entrant, codes))
}

/// Whether a list names a school without seats.
fn names_unknown(alloc: Global, entrants: &[Entrant], seats: &[Seats]) -> Result<bool, AllocError>
    ensures { IfOk result (λ answer. answer ≡ names_unknown (market_of entrants.now seats.now)) }
{
    let codes = codes_of(alloc, seats)?;
    Ok(some_want_unknown(entrants, &codes))
}

fn child_of(entrant: &Entrant) -> ChildNo
    ensures { result ≡ entrant.now.child }
{
    entrant.child
}

/// The children of the entrants, in their order.
fn children_of(alloc: Global, entrants: &[Entrant]) -> Result<Vec<ChildNo>, AllocError>
    ensures { IfOk result (λ children. children.items ≡ map (λ entrant. entrant.child) entrants.now) }
{
    entrants
        .iter()
        .map(|entrant| child_of(entrant))
        .collect(alloc)
}

/// Whether a child is repeated.
fn repeats_child(alloc: Global, entrants: &[Entrant]) -> Result<bool, AllocError>
    ensures { IfOk result (λ answer. answer ≡ some_pair same_child entrants.now) }
{
    let children = children_of(alloc, entrants)?;
    has_repeat(alloc, &children)
}

fn tenancy_is_not_last(entrant: &Entrant) -> bool
    ensures { result ≡ is_not_last entrant.now.list entrant.now.tenant }
{
    match entrant.tenant {
        Some(school) => {
            let length = entrant.list.len();
            length == 0 || entrant.preference_rank(school) != length - 1
        }
        None => false,
    }
}

/// Whether a tenant's school is not the last of its list.
fn has_tenant_not_last(entrants: &[Entrant]) -> bool
    ensures { result ≡ list_any (λ entrant. is_not_last entrant.list entrant.tenant) entrants.now }
{
    entrants.iter().any(|entrant| tenancy_is_not_last(entrant))
}

/// Whether a school cannot distinguish two entrants.
fn has_equal_rank(alloc: Global, entrants: &[Entrant]) -> Result<bool, AllocError>
    requires { list_any (λ entrant. some_pair same_school entrant.list) entrants.now ≡ false }
    ensures { IfOk result (λ answer. answer ≡ some_pair share_rank entrants.now) }
{
    let claims = all_claims(alloc, entrants)?;
    has_repeat(alloc, &claims)
}

/// The first of the tests that fails.
pub(crate) fn first_fault(
    alloc: Global,
    entrants: &[Entrant],
    seats: &[Seats],
) -> Result<Option<BadProblem>, AllocError>
    ensures { IfOk result (λ fault. fault ≡ first_fault (market_of entrants.now seats.now)) }
{
    if seats_repeat(alloc, seats)? || some_list_repeats(alloc, entrants)? {
        return Ok(Some(BadProblem::RepeatedSchool));
    }
    if names_unknown(alloc, entrants, seats)? {
        return Ok(Some(BadProblem::UnknownSchool));
    }
    if repeats_child(alloc, entrants)? {
        return Ok(Some(BadProblem::RepeatedChild));
    }
    if has_tenant_not_last(entrants) {
        return Ok(Some(BadProblem::TenantNotLast));
    }
    if has_equal_rank(alloc, entrants)? {
        return Ok(Some(BadProblem::EqualRank));
    }
    Ok(None)
}
