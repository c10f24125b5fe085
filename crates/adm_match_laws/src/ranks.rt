// How entrants rank what they are assigned, how schools rank entrants, and how many places a school has.
ghost use Rattle.std.specs.Prelude.{◌≡◌};
ghost use Rattle.adm_match.specs.Market.{assigned_rank, key_at, ranks_before, quota_of};

use adm_match::{Entrant, Seats};
use adm_rank::RankKey;
use adm_types::SchoolCode;

/// The rank among the entrant's preferences of what it is assigned: none comes after every school.
pub(crate) fn assigned_rank(entrant: &Entrant, school: Option<SchoolCode>) -> usize
    ensures { result ≡ assigned_rank entrant.now.list school }
{
    match school {
        Some(school) => entrant.preference_rank(school),
        None => entrant.list.len(),
    }
}

/// The key by which the entrant ranks at the school, if its list names it.
fn key_at(entrant: &Entrant, school: SchoolCode) -> Option<RankKey>
    ensures { result ≡ key_at entrant.now.list school }
{
    entrant
        .list
        .iter()
        .find(|wish| wish.school == school)
        .map(|wish| wish.key)
}

/// Whether the entrant ranks before the other one at the school, by their keys there.
pub(crate) fn ranks_before(entrant: &Entrant, other: &Entrant, school: SchoolCode) -> bool
    ensures { result ≡ ranks_before school entrant.now other.now }
{
    match (key_at(entrant, school), key_at(other, school)) {
        (Some(one), Some(another)) => one < another,
        _ => false,
    }
}

/// The quota of a school.
pub(crate) fn quota_of(seats: &[Seats], school: SchoolCode) -> u32
    ensures { result ≡ quota_of seats.now school }
{
    seats
        .iter()
        .find(|seat| seat.code == school)
        .map(|seat| seat.quota)
        .unwrap_or(0)
}
