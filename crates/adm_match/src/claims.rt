// The keys by which the entrants that are no tenants compete for the schools.
ghost use Rattle.std.specs.Prelude.{◌≡◌, ◌++◌, ◌∷◌, [], IfOk};
ghost use Rattle.adm_match.specs.Claims.{asked, all_claims};

use crate::problem::{Entrant, Wish};
use adm_rank::RankKey;
use adm_types::SchoolCode;
use std::alloc::{AllocError, Global};

/// A school that an entrant lists and of which it is no tenant, with the entrant's key there. Keys
/// come first in the order, since they are compared faster than codes.
#[derive(Clone, Copy, Debug, PartialEq, Eq, PartialOrd, Ord)]
pub struct Claim {
    pub key: RankKey,
    pub school: SchoolCode,
}

/// Adds the claim of the entrant's wish, where it is no tenant of that school.
fn add_claim(claims: &mut Vec<Claim>, entrant: &Entrant, wish: Wish) -> Result<(), AllocError>
    ensures { IfOk result (λ _. claims.new.items ≡ claims.old.items ++ asked entrant.now (wish ∷ [])) }
{
    if entrant.is_tenant_of(wish.school) {
        return Ok(());
    }
    claims.push(Claim {
        key: wish.key,
        school: wish.school,
    })?;
    Ok(())
}

/// Adds the claims of the entrant.
fn add_claims(claims: &mut Vec<Claim>, entrant: &Entrant, list: &[Wish]) -> Result<(), AllocError>
    ensures { IfOk result (λ _. claims.new.items ≡ claims.old.items ++ asked entrant.now list.now) }
{
    for index in 0..list.len() {
        add_claim(claims, entrant, list[index])?;
    }
    Ok(())
}

/// The claims of all entrants.
pub(crate) fn all_claims(alloc: Global, entrants: &[Entrant]) -> Result<Vec<Claim>, AllocError>
    ensures { IfOk result (λ claims. claims.items ≡ all_claims entrants.now) }
{
    let mut claims = Vec::new(alloc);
    for index in 0..entrants.len() {
        let entrant = &entrants[index];
        add_claims(&mut claims, entrant, &entrant.list)?;
    }
    Ok(claims)
}
