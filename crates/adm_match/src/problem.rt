// Problems of allocation: entrants with their lists, and the seats of the schools.
ghost use Rattle.std.specs.Prelude.{◌≡◌, bytes_eq};
ghost use Rattle.std.specs.List.{position};

use crate::faults::first_fault;
use crate::places::{Places, places_of};
use adm_rank::RankKey;
use adm_types::{ChildNo, SchoolCode};
use std::alloc::{AllocError, Global};
use std::marker::Model;
use thiserror::Error;

/// A school on a child's list, with the key by which the child ranks there.
#[derive(Clone, Copy, Debug)]
pub struct Wish {
    pub school: SchoolCode,
    pub key: RankKey,
}

/// A child of a round, with its list, the most wanted school first, and the school of which it is
/// a tenant, if any. A contract sees the list's wishes.
#[derive(Drop)]
pub struct Entrant {
    pub child: ChildNo,
    pub list: Vec<Wish>,
    pub tenant: Option<SchoolCode>,
}

impl Model for Entrant {
    ghost use Rattle.adm_match.specs.Market.{Candidate};

    ghost Value = { Candidate };

    ghost view = { λ e. record { child = e.child; list = e.list.items; tenant = e.tenant } };
}

impl Entrant {
    ghost use Rattle.adm_match.specs.Market.{preference_rank, is_tenant};

    fn position(&self, school: SchoolCode) -> Option<usize>
        ensures { result ≡ position (λ wish. bytes_eq wish.school school) self.now.list }
    {
        self.list.iter().position(|wish| wish.school == school)
    }

    /// The rank of the school among the child's preferences: its index on the list, or the list's
    /// length where it is not on it.
    pub fn preference_rank(&self, school: SchoolCode) -> usize
        ensures { result ≡ preference_rank self.now.list school }
    {
        self.position(school).unwrap_or(self.list.len())
    }

    /// Whether the child is a tenant of the school.
    pub fn is_tenant_of(&self, school: SchoolCode) -> bool
        ensures { result ≡ is_tenant self.now school }
    {
        match self.tenant {
            Some(home) => home == school,
            None => false,
        }
    }
}

/// The places of a school.
#[derive(Clone, Copy, Debug)]
pub struct Seats {
    pub code: SchoolCode,
    pub quota: u32,
}

/// What is wrong with a problem.
#[derive(Clone, Copy, Debug, PartialEq, Eq, Error)]
pub enum BadProblem {
    /// A school is repeated, among the seats or on one list.
    #[error("a school is repeated")]
    RepeatedSchool = 1,
    /// A list names a school without seats.
    #[error("a list names a school without seats")]
    UnknownSchool = 2,
    /// Two entrants list a school with equal keys, and neither is its tenant.
    #[error("two entrants have equal keys at a school")]
    EqualRank = 3,
    /// A tenant's school is not the last of its list.
    #[error("a tenant's school is not the last of its list")]
    TenantNotLast = 4,
    /// Memory ran out.
    #[error("out of memory")]
    Memory = 5,
    /// A child is repeated.
    #[error("a child is repeated")]
    RepeatedChild = 6,
}

impl From<AllocError> for BadProblem {
    ghost use Rattle.std.specs.Prelude.{◌≡◌};
    ghost use Rattle.adm_match.specs.declared.problem.BadProblem.TheVariants.{Memory};

    ghost from_gives = { λ _ fault. fault ≡ Memory };

    fn from(_: AllocError) -> BadProblem {
        BadProblem::Memory
    }
}

/// Entrants with their lists, and the seats of the schools. A contract sees both lists.
#[derive(Drop)]
pub struct Problem {
    pub(crate) entrants: Vec<Entrant>,
    pub(crate) seats: Vec<Seats>,
    // of each entrant's list
    pub(crate) places: Vec<Places>,
}

impl Model for Problem {
    ghost use Rattle.std.specs.Prelude.{◌≡◌, None};
    ghost use Rattle.adm_match.specs.Market.{Market, market_of, first_fault};
    ghost use Rattle.adm_match.specs.Places.{IsPlaced};

    ghost Value = { Market };

    ghost view = { λ p. market_of p.entrants.items p.seats.items };

    ghost invariant = { λ p. (first_fault (market_of p.entrants.items p.seats.items) ≡ None) × IsPlaced (market_of p.entrants.items p.seats.items) p.places.items };
}

impl Problem {
    ghost use Rattle.std.specs.Prelude.{MatchResult, IfOk, Some, ◌≡◌, ◌⊎◌, None};
    ghost use Rattle.adm_match.specs.declared.problem.BadProblem.TheVariants.{Memory};
    ghost use Rattle.adm_match.specs.Market.{market_of, first_fault};

    /// The problem of just these entrants and seats, or the first of the tests that fails: a school
    /// that is repeated, a list that names a school without seats, a child that is repeated, a
    /// tenant whose school is not the last of its list, two entrants with equal keys at a school.
    /// The cost grows with the list entries, times their logarithm.
    pub fn new(
        alloc: Global,
        entrants: Vec<Entrant>,
        seats: Vec<Seats>,
    ) -> Result<Problem, BadProblem>
        ensures { let market = market_of entrants.items seats.items in
            MatchResult result
            (λ problem. (first_fault market ≡ None) × (problem ≡ market))
            (λ fault. (first_fault market ≡ Some fault) ⊎ (fault ≡ Memory)) }
    {
        if let Some(fault) = first_fault(alloc, &entrants, &seats)? {
            return Err(fault);
        }
        Ok(Problem::posed(alloc, entrants, seats)?)
    }

    /// The problem of entrants and seats that pass the tests, without trying them.
    /// The cost grows with the list entries, times the logarithm of the seats.
    pub fn posed(
        alloc: Global,
        entrants: Vec<Entrant>,
        seats: Vec<Seats>,
    ) -> Result<Problem, AllocError>
        requires { first_fault (market_of entrants.items seats.items) ≡ None }
        ensures { IfOk result (λ problem. problem ≡ market_of entrants.items seats.items) }
    {
        let places = places_of(alloc, &entrants, &seats)?;
        Ok(Problem {
            entrants,
            seats,
            places,
        })
    }

    /// The entrants, in the order in which they were given.
    pub fn entrants(&self) -> &[Entrant]
        ensures value { result.now ≡ self.now.entrants }
        ensures faultless { first_fault self.now ≡ None }
    {
        &self.entrants
    }

    /// The seats, in the order in which they were given.
    pub fn seats(&self) -> &[Seats]
        ensures { result.now ≡ self.now.seats }
    {
        &self.seats
    }
}
