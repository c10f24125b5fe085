// Which child and school block an allocation.
ghost use Rattle.std.specs.Prelude.{◌≡◌, ◌&&◌, not, IfSome, IfNone, find, option_map, count_by, All};
ghost use Rattle.std.specs.List.{list_any};
ghost use Rattle.adm_types.specs.Code.{has};
ghost use Rattle.adm_match.specs.Market.{market_of, ranks_before};
ghost use Rattle.adm_match.specs.Stability.{school_of, blocks, prefers, ranks_after, IsFirstOfList, IsContent, IsFirstBlock};
ghost use Rattle.adm_match_laws.specs.Blocks.{earlier};

use crate::ranks::{assigned_rank, quota_of, ranks_before};
use adm_match::{Entrant, Offers, Problem, Seats, Wish};
use adm_types::{ChildNo, SchoolCode};

/// Whether the entrant was offered the school.
fn is_at(offers: &Offers, entrant: &Entrant, school: SchoolCode) -> bool
    ensures { result ≡ has (school_of offers.now entrant.now.child) school }
{
    match offers.of(entrant.child) {
        Some(other) => other == school,
        None => false,
    }
}

/// How many entrants were offered the school.
fn count_at(entrants: &[Entrant], offers: &Offers, school: SchoolCode) -> usize
    ensures { result ≡ count_by (λ entrant. has (school_of offers.now entrant.child) school) entrants.now }
{
    entrants
        .iter()
        .filter(|entrant| is_at(offers, entrant, school))
        .count()
}

/// Whether the other entrant is at the school, is no tenant of it, and ranks after the first.
fn ranks_after(offers: &Offers, school: SchoolCode, entrant: &Entrant, other: &Entrant) -> bool
    ensures { result ≡ ranks_after (school_of offers.now) school entrant.now other.now }
{
    is_at(offers, other, school)
        && !other.is_tenant_of(school)
        && ranks_before(entrant, other, school)
}

/// Whether some child at the school, no tenant of it, ranks after the entrant.
fn some_ranks_after(
    entrants: &[Entrant],
    offers: &Offers,
    school: SchoolCode,
    entrant: &Entrant,
) -> bool
    ensures { result ≡ list_any (ranks_after (school_of offers.now) school entrant.now) entrants.now }
{
    entrants
        .iter()
        .any(|other| ranks_after(offers, school, entrant, other))
}

/// Whether the entrant wants the school more than what it was offered.
fn prefers(offers: &Offers, entrant: &Entrant, school: SchoolCode) -> bool
    ensures { result ≡ prefers (school_of offers.now) entrant.now school }
{
    entrant.preference_rank(school) < assigned_rank(entrant, offers.of(entrant.child))
}

/// Whether the entrant and the school block.
fn blocks(
    entrants: &[Entrant],
    seats: &[Seats],
    offers: &Offers,
    entrant: &Entrant,
    school: SchoolCode,
) -> bool
    ensures { result ≡ blocks (market_of entrants.now seats.now) (school_of offers.now) entrant.now school }
{
    prefers(offers, entrant, school)
        && (entrant.is_tenant_of(school)
            || count_at(entrants, offers, school) < quota_of(seats, school) as usize
            || some_ranks_after(entrants, offers, school, entrant))
}

/// The first school of the list that blocks with the entrant.
fn first_of_list(
    entrants: &[Entrant],
    seats: &[Seats],
    offers: &Offers,
    entrant: &Entrant,
    list: &[Wish],
) -> Option<SchoolCode>
    ensures { result ≡ option_map (λ wish. wish.school) (find (λ wish. blocks (market_of entrants.now seats.now) (school_of offers.now) entrant.now wish.school) list.now) }
{
    list.iter()
        .find(|wish| blocks(entrants, seats, offers, entrant, wish.school))
        .map(|wish| wish.school)
}

/// The first school of the entrant's list that blocks with it.
fn first_block_of(
    entrants: &[Entrant],
    seats: &[Seats],
    offers: &Offers,
    entrant: &Entrant,
) -> Option<SchoolCode>
    ensures some { IfSome result (IsFirstOfList (market_of entrants.now seats.now) (school_of offers.now) entrant.now) }
    ensures none { IfNone result (IsContent (market_of entrants.now seats.now) (school_of offers.now) entrant.now) }
{
    first_of_list(entrants, seats, offers, entrant, &entrant.list)
}

/// The first pair, or the child with the school found for it where that has the smaller number.
fn earlier(
    first: Option<(ChildNo, SchoolCode)>,
    child: ChildNo,
    found: Option<SchoolCode>,
) -> Option<(ChildNo, SchoolCode)>
    ensures { result ≡ earlier first child found }
{
    let Some(school) = found else {
        return first;
    };
    if let Some(pair) = first {
        if pair.0 <= child {
            return Some(pair);
        }
    }
    Some((child, school))
}

fn first_among(
    entrants: &[Entrant],
    seats: &[Seats],
    offers: &Offers,
) -> Option<(ChildNo, SchoolCode)>
    ensures found { IfSome result (IsFirstBlock (market_of entrants.now seats.now) (school_of offers.now)) }
    ensures none { IfNone result (All (IsContent (market_of entrants.now seats.now) (school_of offers.now)) entrants.now) }
{
    let mut first: Option<(ChildNo, SchoolCode)> = None;
    for index in 0..entrants.len() {
        let entrant = &entrants[index];
        let found = first_block_of(entrants, seats, offers, entrant);
        first = earlier(first, entrant.child, found);
    }
    first
}

/// The pair that blocks the offers, with the smallest child number, and of that child the first
/// school on its list. It takes no memory, and the offers may be those of another problem.
pub fn first_block(problem: &Problem, offers: &Offers) -> Option<(ChildNo, SchoolCode)>
    ensures found { IfSome result (IsFirstBlock problem.now (school_of offers.now)) }
    ensures none { IfNone result (All (IsContent problem.now (school_of offers.now)) problem.now.entrants) }
{
    first_among(problem.entrants(), problem.seats(), offers)
}
