// The entrants of a problem in which one child lists its wanted schools otherwise.
ghost use Rattle.std.specs.Prelude.{◌≡◌, ◌++◌, ◌∷◌, [], IfOk, map, find, bytes_eq};
ghost use Rattle.std.specs.Option.{option_to_list, option_copied};
ghost use Rattle.adm_match.specs.Relisting.{wishes_among, relist};

use crate::problem::{Entrant, Wish};
use adm_types::{ChildNo, SchoolCode};
use std::alloc::{AllocError, Global};

/// The wish of the list for the school.
fn wish_for(list: &[Wish], school: SchoolCode) -> Option<&Wish>
    ensures { option_copied result ≡ find (λ wish. bytes_eq wish.school school) list.now }
{
    list.iter().find(|wish| wish.school == school)
}

/// Adds the list's wish for the school, where there is one.
fn add_wish(wishes: &mut Vec<Wish>, list: &[Wish], school: SchoolCode) -> Result<(), AllocError>
    ensures { IfOk result (λ _. wishes.new.items ≡ wishes.old.items ++ wishes_among list.now (school ∷ [])) }
{
    if let Some(wish) = wish_for(list, school) {
        wishes.push(*wish)?;
    }
    Ok(())
}

/// Adds the list's wishes for the schools, in the schools' order.
fn add_wishes(
    wishes: &mut Vec<Wish>,
    list: &[Wish],
    schools: &[SchoolCode],
) -> Result<(), AllocError>
    ensures { IfOk result (λ _. wishes.new.items ≡ wishes.old.items ++ wishes_among list.now schools.now) }
{
    for index in 0..schools.len() {
        add_wish(wishes, list, schools[index])?;
    }
    Ok(())
}

/// Adds the list's wish for the school of which the child is a tenant, if any.
fn add_own(
    wishes: &mut Vec<Wish>,
    list: &[Wish],
    tenant: Option<SchoolCode>,
) -> Result<(), AllocError>
    ensures { IfOk result (λ _. wishes.new.items ≡ wishes.old.items ++ wishes_among list.now (option_to_list tenant)) }
{
    match tenant {
        Some(home) => add_wish(wishes, list, home),
        None => Ok(()),
    }
}

/// The wishes of the list for the schools, and then for the school of which the child is a tenant,
/// if any.
fn new_list(
    alloc: Global,
    list: &[Wish],
    tenant: Option<SchoolCode>,
    schools: &[SchoolCode],
) -> Result<Vec<Wish>, AllocError>
    ensures { IfOk result (λ wishes. wishes.items ≡ wishes_among list.now (schools.now ++ option_to_list tenant)) }
{
    let mut wishes = Vec::new(alloc);
    add_wishes(&mut wishes, list, schools)?;
    add_own(&mut wishes, list, tenant)?;
    Ok(wishes)
}

/// The same wishes again.
fn copied(alloc: Global, list: &[Wish]) -> Result<Vec<Wish>, AllocError>
    ensures { IfOk result (λ wishes. wishes.items ≡ list.now) }
{
    list.iter().copied().collect(alloc)
}

/// The entrant, with these schools for its list where it is the child.
fn relist(
    alloc: Global,
    entrant: &Entrant,
    child: ChildNo,
    schools: &[SchoolCode],
) -> Result<Entrant, AllocError>
    ensures { IfOk result (λ other. other ≡ relist child schools.now entrant.now) }
{
    let list = if entrant.child == child {
        new_list(alloc, &entrant.list, entrant.tenant, schools)?
    } else {
        copied(alloc, &entrant.list)?
    };
    Ok(Entrant {
        child: entrant.child,
        list,
        tenant: entrant.tenant,
    })
}

/// The entrants, of whom the child has these schools for its list, and then the school of which
/// it is a tenant, if any.
pub(crate) fn relisted(
    alloc: Global,
    entrants: &[Entrant],
    child: ChildNo,
    schools: &[SchoolCode],
) -> Result<Vec<Entrant>, AllocError>
    ensures { IfOk result (λ others. others.items ≡ map (relist child schools.now) entrants.now) }
{
    let mut others = Vec::new(alloc);
    for index in 0..entrants.len() {
        let entrant = &entrants[index];
        others.push(relist(alloc, entrant, child, schools)?)?;
    }
    Ok(others)
}
