// Whom a school holds, tentatively, while entrants propose: its tenants, and the others in a heap.
ghost use Rattle.std.specs.Prelude.{◌≡◌, ◌<◌, length, [], IfOk, OnErr, IfSome, IfNone};
ghost use Rattle.std.specs.BinaryHeap.{heap_items, IsHeap};
ghost use Rattle.adm_match.specs.Holding.{Holding, Considers, ConsidersAt, RanksLast, guest_cmp};

use adm_rank::RankKey;
use std::alloc::{AllocError, Global};
use std::collections::BinaryHeap;
use std::marker::Model;

/// A child that a school holds, and that is no tenant of it, by its number or its index. The
/// greatest ranks last.
#[derive(Clone, Copy, Debug, PartialEq, Eq, PartialOrd, Ord)]
pub struct Guest {
    pub key: RankKey,
    pub child: usize,
}

/// Takes out the guest that ranks last.
fn pop_last(guests: &mut BinaryHeap<Guest>) -> Option<usize>
    requires { IsHeap guest_cmp (heap_items guests.old) }
    ensures heap { IsHeap guest_cmp (heap_items guests.new) }
    ensures last { IfSome result (RanksLast (heap_items guests.old) (heap_items guests.new)) }
    ensures none { IfNone result ((heap_items guests.old ≡ []) × (heap_items guests.new ≡ [])) }
{
    match guests.pop() {
        Some(guest) => Some(guest.child),
        None => None,
    }
}

/// Whom a school tentatively holds, each by an index that the caller gives: its tenants, and the
/// guests in a heap whose top ranks last.
#[derive(Drop)]
pub struct HeldByIndex {
    quota: u32,
    tenants: Vec<usize>,
    guests: BinaryHeap<Guest>,
}

impl Model for HeldByIndex {
    ghost use Rattle.std.specs.BinaryHeap.{heap_items, IsHeap};
    ghost use Rattle.adm_match.specs.Holding.{Holding, holding_of, guest_cmp};

    ghost Value = { Holding };

    ghost view = { λ k. holding_of k.quota k.tenants.items (heap_items k.guests) };

    ghost invariant = { λ k. IsHeap guest_cmp (heap_items k.guests) };
}

impl HeldByIndex {
    ghost use Rattle.adm_match.specs.Holding.{holding_of};

    /// Holds nobody. It takes no memory.
    pub fn new(alloc: Global, quota: u32) -> HeldByIndex
        ensures { result ≡ holding_of quota [] [] }
    {
        HeldByIndex {
            quota,
            tenants: Vec::new(alloc),
            guests: BinaryHeap::new(alloc),
        }
    }

    /// Considers the proposal of the child at the index: it is held too. Where more than the quota are
    /// then held and some of them is no tenant, the guest that ranks last is rejected, and is the answer.
    pub fn consider(
        &mut self,
        child: usize,
        key: RankKey,
        tenant: bool,
    ) -> Result<Option<usize>, AllocError>
        ensures ok { IfOk result (Considers self.old self.new (record { child = child; key = key; tenant = tenant })) }
        ensures err { OnErr result (self.new ≡ self.old) }
    {
        if tenant {
            self.tenants.push(child)?;
        } else {
            self.guests.push(Guest { key, child })?;
        }
        if self.tenants.len() + self.guests.len() <= self.quota as usize {
            return Ok(None);
        }
        Ok(pop_last(&mut self.guests))
    }
}

/// One school of several considers the proposal of the child at the index.
pub(crate) fn consider_at(
    schools: &mut [HeldByIndex],
    at: usize,
    child: usize,
    key: RankKey,
    tenant: bool,
) -> Result<Option<usize>, AllocError>
    requires { at < length schools.old }
    ensures ok { IfOk result (ConsidersAt schools.old schools.new at (record { child = child; key = key; tenant = tenant })) }
    ensures err { OnErr result (schools.new ≡ schools.old) }
{
    let held = &mut schools[at];
    held.consider(child, key, tenant)
}
