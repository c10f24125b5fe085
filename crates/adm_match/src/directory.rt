// The index of each school among the seats, by halving.
ghost use Rattle.std.specs.Prelude.{◌≡◌, ◌<◌, ℕ, length, IfOk};
ghost use Rattle.std.specs.List.{Contains};
ghost use Rattle.std.specs.List.Sorted.{IsSortedByKey, IsPermutation};
ghost use Rattle.std.specs.declared.cmp.Ordering.TheVariants.{Equal};
ghost use Rattle.adm_match.specs.Places.{SeatedAt};
ghost use Rattle.adm_match.specs.Queue.{FindsSchools};

use crate::problem::Seats;
use adm_types::SchoolCode;
use std::alloc::{AllocError, Global};

/// An index that is beside the key, which one of the pairs has.
fn index_beside<K: Ord + Copy + Drop>(pairs: &[(K, usize)], key: K) -> usize
    requires sorted { IsSortedByKey (λ pair. pair.0) K.cmp pairs.now }
    requires there { (k : ℕ) × Contains pairs.now (key, k) }
    ensures { (other : K) × Contains pairs.now (other, result) × (K.cmp other key ≡ Equal) }
{
    match pairs.binary_search_by_key(&key, |pair| pair.0) {
        Ok(at) => pairs[at].1,
        Err(_) => unreachable!(),
    }
}

/// The pairs in the order of their keys.
fn in_order<K: Ord + Copy + Drop>(pairs: Vec<(K, usize)>) -> Vec<(K, usize)>
    ensures sorted { IsSortedByKey (λ pair. pair.0) K.cmp result.items }
    ensures permutation { IsPermutation pairs.items result.items }
{
    let mut pairs = pairs;
    pairs.sort_unstable_by_key(|pair| pair.0);
    pairs
}

/// The school's index among the seats.
pub(crate) fn index_of_school(
    schools: &[(SchoolCode, usize)],
    seats: &[Seats],
    school: SchoolCode,
) -> usize
    requires finds { FindsSchools seats.now schools.now }
    requires there { (j : ℕ) × SeatedAt seats.now school j }
    ensures at { SeatedAt seats.now school result }
    ensures within { result < length seats.now }
{
    index_beside(schools, school)
}

/// Each school beside its index among the seats, in the order of the schools.
pub(crate) fn indices_of_schools(
    alloc: Global,
    seats: &[Seats],
) -> Result<Vec<(SchoolCode, usize)>, AllocError>
    ensures { IfOk result (λ indices. FindsSchools seats.now indices.items) }
{
    let mut indices = Vec::with_capacity(alloc, seats.len())?;
    for index in 0..seats.len() {
        let seat = seats[index];
        indices.push((seat.code, index))?;
    }
    Ok(in_order(indices))
}
