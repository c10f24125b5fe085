// Deferred acceptance with a queue of entrants without a school, and a heap of guests at each school.
ghost use Rattle.std.specs.Prelude.{◌≡◌, ◌<◌, ◌==◌, ◌++◌, ℕ, length, map, IfOk, All, None, true, false, ◌&&◌, is_none, nat_lt};
ghost use Rattle.std.specs.List.{list_any};
ghost use Rattle.std.specs.Option.{option_to_list};
ghost use Rattle.adm_match.specs.Stability.{IsBest, school_of, is_entrant, proposals_of};
ghost use Rattle.adm_match.specs.Market.{market_of};
ghost use Rattle.adm_match.specs.Turns.{IsFree, AllDone, Sound};
ghost use Rattle.adm_match.specs.Distinct.{Distinct, Seated};
ghost use Rattle.adm_match.specs.Holding.{nobody_held};
ghost use Rattle.adm_match.specs.Places.{IsPlaced};
ghost use Rattle.adm_match.specs.Queue.{Mirrored, Turned, Queued};

use crate::allotment::{Offers, offers_of};
use crate::held::{HeldByIndex, consider_at};
use crate::places::Places;
use crate::problem::{Entrant, Problem, Seats};
use crate::progress::{Progress, hold, reject, start};
use std::alloc::{AllocError, Global};
use std::collections::VecDeque;

/// Each school of the problem, holding nobody, in the order of the seats.
fn schools_of(alloc: Global, seats: &[Seats]) -> Result<Vec<HeldByIndex>, AllocError>
    ensures { IfOk result (λ schools. schools.items ≡ map nobody_held seats.now) }
{
    seats
        .iter()
        .map(|seat| HeldByIndex::new(alloc, seat.quota))
        .collect(alloc)
}

/// The index of every entrant, in their order.
fn queue_of(alloc: Global, entrants: &[Entrant]) -> Result<VecDeque<usize>, AllocError>
    ensures waiting { IfOk result (λ queue. (k : ℕ) → k < length entrants.now → list_any (λ q. q == k) queue.items ≡ true) }
    ensures within { IfOk result (λ queue. All (λ q. q < length entrants.now) queue.items) }
{
    let mut queue = VecDeque::new(alloc);
    for index in 0..entrants.len() {
        queue.push_back(index)?;
    }
    Ok(queue)
}

/// Puts the index of the one who was rejected, if any, at the queue's end.
fn line_up(queue: &mut VecDeque<usize>, out: Option<usize>) -> Result<(), AllocError>
    ensures { IfOk result (λ _. queue.new.items ≡ queue.old.items ++ option_to_list out) }
{
    match out {
        Some(rejected) => {
            queue.push_back(rejected)?;
            Ok(())
        }
        None => Ok(()),
    }
}

/// Whether no school holds the entrant, and it has a school left on its list.
fn is_free(entrant: &Entrant, row: Progress) -> bool
    ensures { result ≡ (is_none row.school && nat_lt row.rejections (length entrant.now.list)) }
{
    let length = entrant.list.len();
    row.school.is_none() && row.rejections < length
}

/// The free entrant at the index proposes to the next school of its list. The answer is the index
/// of the entrant whom that school rejects, if any.
fn propose(
    entrants: &[Entrant],
    seats: &[Seats],
    places: &[Places],
    rows: &mut [Progress],
    schools: &mut [HeldByIndex],
    index: usize,
) -> Result<Option<usize>, AllocError>
    requires distinct { Distinct (market_of entrants.now seats.now) }
    requires seated { Seated (market_of entrants.now seats.now) }
    requires placed { IsPlaced (market_of entrants.now seats.now) places.now }
    requires sound { Sound (market_of entrants.now seats.now) rows.old }
    requires mirrored { Mirrored (market_of entrants.now seats.now) rows.old schools.old }
    requires free { IsFree entrants.now rows.old index }
    ensures { IfOk result (Turned (market_of entrants.now seats.now) rows.old rows.new schools.new index) }
{
    let entrant = &entrants[index];
    let row = rows[index];
    let wish = entrant.list[row.rejections];
    let at = places[index].of(row.rejections);
    let tenant = entrant.is_tenant_of(wish.school);
    let out = consider_at(schools, at, index, wish.key, tenant)?;
    hold(rows, index, wish.school);
    let Some(rejected) = out else {
        return Ok(None);
    };
    reject(&entrants[rejected], rows, rejected);
    Ok(Some(rejected))
}

/// The state of the entrants when no turn remains.
fn settle(
    alloc: Global,
    entrants: &[Entrant],
    seats: &[Seats],
    places: &[Places],
) -> Result<Vec<Progress>, AllocError>
    requires distinct { Distinct (market_of entrants.now seats.now) }
    requires seated { Seated (market_of entrants.now seats.now) }
    requires placed { IsPlaced (market_of entrants.now seats.now) places.now }
    ensures sound { IfOk result (λ rows. Sound (market_of entrants.now seats.now) rows.items) }
    ensures done { IfOk result (λ rows. AllDone entrants.now rows.items) }
{
    let mut rows = start(alloc, entrants)?;
    let mut schools = schools_of(alloc, seats)?;
    let mut queue = queue_of(alloc, entrants)?;
    while let Some(index) = queue.pop_front() {
        let entrant = &entrants[index];
        if !is_free(entrant, rows[index]) {
            continue;
        }
        let out = propose(entrants, seats, places, &mut rows, &mut schools, index)?;
        line_up(&mut queue, out)?;
    }
    Ok(rows)
}

/// The best stable allocation of entrants that can be distinguished, at schools that have seats.
pub(crate) fn allot(
    alloc: Global,
    entrants: &[Entrant],
    seats: &[Seats],
    places: &[Places],
) -> Result<Offers, AllocError>
    requires distinct { Distinct (market_of entrants.now seats.now) }
    requires seated { Seated (market_of entrants.now seats.now) }
    requires placed { IsPlaced (market_of entrants.now seats.now) places.now }
    ensures best { IfOk result (λ offers. IsBest (market_of entrants.now seats.now) (school_of offers)) }
    ensures others { IfOk result (λ offers. (child : ℕ) → is_entrant (market_of entrants.now seats.now) child ≡ false → school_of offers child ≡ None) }
    ensures proposals { IfOk result (λ offers. offers.proposals ≡ proposals_of (market_of entrants.now seats.now) (school_of offers)) }
{
    let rows = settle(alloc, entrants, seats, places)?;
    offers_of(rows)
}

/// The best stable allocation of the problem: deferred acceptance, in which the children propose.
/// Its cost grows with the list entries gone through, times the logarithm of the entrants.
pub fn offers(alloc: Global, problem: &Problem) -> Result<Offers, AllocError>
    // It is stable, and in every stable allocation each entrant has the same school, or one later
    // on its list, or none.
    ensures best { IfOk result (λ offers. IsBest problem.now (school_of offers)) }
    ensures others { IfOk result (λ offers. (child : ℕ) → is_entrant problem.now child ≡ false → school_of offers child ≡ None) }
    ensures proposals { IfOk result (λ offers. offers.proposals ≡ proposals_of problem.now (school_of offers)) }
{
    allot(alloc, &problem.entrants, &problem.seats, &problem.places)
}
