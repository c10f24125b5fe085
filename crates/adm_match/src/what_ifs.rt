// What a child would have under another list.
ghost use Rattle.std.specs.Prelude.{◌≡◌, ◌==◌, ◌⊎◌, IfOk, IfErr, None, Some, find, bytes_eq};
ghost use Rattle.std.specs.List.{list_any, list_all};
ghost use Rattle.std.specs.Option.{option_copied};
ghost use Rattle.adm_match.specs.Market.{some_pair};
ghost use Rattle.adm_match.specs.Relisting.{is_wanted, may_list, list_fault, what_if_fault, IsWhatIf, IsNoGain};
ghost use Rattle.adm_match.specs.declared.what_ifs.WhatIfFault.TheVariants.{Memory};

use crate::acceptance::allot;
use crate::places::places_of;
use crate::problem::{Entrant, Problem, Wish};
use crate::relisting::relisted;
use crate::repeats::has_repeat;
use adm_types::{ChildNo, SchoolCode};
use std::alloc::{AllocError, Global};
use thiserror::Error;

/// Why it can't be said what a child would have.
#[derive(Clone, Copy, Debug, PartialEq, Eq, Error)]
pub enum WhatIfFault {
    /// The child is no entrant.
    #[error("the child is no entrant")]
    UnknownChild = 1,
    /// A school is not among those that the child wants, or is repeated.
    #[error("a school is not among the child's wanted ones, or is repeated")]
    NotItsSchools = 2,
    /// Memory ran out.
    #[error("out of memory")]
    Memory = 3,
}

impl From<AllocError> for WhatIfFault {
    ghost use Rattle.adm_match.specs.declared.what_ifs.WhatIfFault.TheVariants.{Memory};

    ghost from_gives = { λ _ fault. fault ≡ Memory };

    fn from(_: AllocError) -> WhatIfFault {
        WhatIfFault::Memory
    }
}

/// Whether the entrant is the child.
fn is_child(entrant: &Entrant, child: ChildNo) -> bool
    ensures { result ≡ (entrant.now.child == child) }
{
    entrant.child == child
}

/// The child's entrant.
fn entrant_of(entrants: &[Entrant], child: ChildNo) -> Option<&Entrant>
    ensures { option_copied result ≡ find (λ entrant. entrant.child == child) entrants.now }
{
    entrants.iter().find(|entrant| is_child(entrant, child))
}

fn lists(list: &[Wish], school: SchoolCode) -> bool
    ensures { result ≡ list_any (λ wish. bytes_eq wish.school school) list.now }
{
    list.iter().any(|wish| wish.school == school)
}

/// Whether the entrant lists the school, and is no tenant of it.
fn wants(entrant: &Entrant, school: SchoolCode) -> bool
    ensures { result ≡ is_wanted entrant.now school }
{
    !entrant.is_tenant_of(school) && lists(&entrant.list, school)
}

fn wants_all(entrant: &Entrant, schools: &[SchoolCode]) -> bool
    ensures { result ≡ list_all (is_wanted entrant.now) schools.now }
{
    schools.iter().all(|school| wants(entrant, *school))
}

/// Whether a school is repeated.
fn repeats(alloc: Global, schools: &[SchoolCode]) -> Result<bool, AllocError>
    ensures { IfOk result (λ answer. answer ≡ some_pair bytes_eq schools.now) }
{
    has_repeat(alloc, schools)
}

/// Whether the entrant wants each of the schools, and none of them is repeated.
fn may_list(alloc: Global, entrant: &Entrant, schools: &[SchoolCode]) -> Result<bool, AllocError>
    ensures { IfOk result (λ answer. answer ≡ may_list entrant.now schools.now) }
{
    let twice = repeats(alloc, schools)?;
    let wanted = wants_all(entrant, schools);
    Ok(wanted && !twice)
}

/// Why the child may not list these schools.
fn fault_of_list(
    alloc: Global,
    entrants: &[Entrant],
    child: ChildNo,
    schools: &[SchoolCode],
) -> Result<Option<WhatIfFault>, AllocError>
    ensures { IfOk result (λ fault. fault ≡ list_fault (find (λ entrant. entrant.child == child) entrants.now) schools.now) }
{
    let Some(entrant) = entrant_of(entrants, child) else {
        return Ok(Some(WhatIfFault::UnknownChild));
    };
    if may_list(alloc, entrant, schools)? {
        return Ok(None);
    }
    Ok(Some(WhatIfFault::NotItsSchools))
}

/// The school that the child would have, if it listed these of the schools that it wants, in this
/// order, instead of its list; the school of which it is a tenant, if any, stays last.
pub fn what_if(
    alloc: Global,
    problem: &Problem,
    child: ChildNo,
    schools: &[SchoolCode],
) -> Result<Option<SchoolCode>, WhatIfFault>
    ensures school { IfOk result (λ school. (what_if_fault problem.now child schools.now ≡ None) × IsWhatIf problem.now child schools.now school) }
    // By its own list it does no worse.
    ensures no_gain { IfOk result (IsNoGain problem.now child) }
    ensures fault { IfErr result (λ fault. (what_if_fault problem.now child schools.now ≡ Some fault) ⊎ (fault ≡ Memory)) }
{
    let fault = fault_of_list(alloc, &problem.entrants, child, schools)?;
    if let Some(fault) = fault {
        return Err(fault);
    }
    let entrants = relisted(alloc, &problem.entrants, child, schools)?;
    let places = places_of(alloc, &entrants, &problem.seats)?;
    let offers = allot(alloc, &entrants, &problem.seats, &places)?;
    Ok(offers.of(child))
}
