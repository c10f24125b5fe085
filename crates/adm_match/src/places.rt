// Where the seats of each wish are, found once for a problem, so that no turn looks for a school.
ghost use Rattle.std.specs.Prelude.{◌≡◌, ◌<◌, Some, length, slice_get, IfOk};
ghost use Rattle.adm_match.specs.Market.{market_of};
ghost use Rattle.adm_match.specs.Distinct.{Seated};
ghost use Rattle.adm_match.specs.Places.{AreKnown, AreSeats, IsPlaced};
ghost use Rattle.adm_match.specs.Queue.{FindsSchools};

use crate::directory::{index_of_school, indices_of_schools};
use crate::problem::{Entrant, Seats, Wish};
use adm_types::SchoolCode;
use std::alloc::{AllocError, Global};
use std::marker::Model;

/// For each wish of a list, in its order, the index of its school among the seats.
#[derive(Drop)]
pub struct Places {
    indices: Vec<usize>,
}

impl Model for Places {
    ghost use Rattle.std.specs.Prelude.{List, ℕ};

    ghost Value = { List ℕ };

    ghost view = { λ p. p.indices.items };
}

impl Places {
    /// The index of the wish's school.
    pub(crate) fn of(&self, wish: usize) -> usize
        requires { wish < length self.now }
        ensures { slice_get self.now wish ≡ Some result }
    {
        self.indices[wish]
    }
}

/// The places of a list whose schools all have seats.
fn places_of_list(
    alloc: Global,
    seats: &[Seats],
    schools: &[(SchoolCode, usize)],
    list: &[Wish],
) -> Result<Places, AllocError>
    requires finds { FindsSchools seats.now schools.now }
    requires known { AreKnown seats.now list.now }
    ensures { IfOk result (AreSeats seats.now list.now) }
{
    let mut indices = Vec::with_capacity(alloc, list.len())?;
    for index in 0..list.len() {
        let wish = list[index];
        indices.push(index_of_school(schools, seats, wish.school))?;
    }
    Ok(Places { indices })
}

/// The places of each entrant's list, where each school of a list has seats. Their cost grows with
/// the list entries, times the logarithm of the seats.
pub(crate) fn places_of(
    alloc: Global,
    entrants: &[Entrant],
    seats: &[Seats],
) -> Result<Vec<Places>, AllocError>
    requires { Seated (market_of entrants.now seats.now) }
    ensures { IfOk result (λ places. IsPlaced (market_of entrants.now seats.now) places.items) }
{
    let schools = indices_of_schools(alloc, seats)?;
    let mut places = Vec::with_capacity(alloc, entrants.len())?;
    for index in 0..entrants.len() {
        let entrant = &entrants[index];
        places.push(places_of_list(alloc, seats, &schools, &entrant.list)?)?;
    }
    Ok(places)
}
