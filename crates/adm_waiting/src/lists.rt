// Waiting lists.
ghost use Rattle.std.specs.Prelude.{◌≡◌, ◌≤◌, ◌+◌, IfOk, IsTrue, true, List, map, length, All, Contains, count_by, IsSorted};
ghost use Rattle.std.specs.List.Sorted.{IsStrictlySortedBy};
ghost use Rattle.std.specs.Ordering.{nat_cmp};
ghost use Rattle.adm_types.specs.Limits.{is_school_in_range, is_child_in_range};
ghost use Rattle.adm_waiting.specs.Waiting.{number_of_child, waiting_list, IsEntryFor};
ghost use Rattle.adm_waiting.specs.Ranks.{is_rank_ahead, rank_cmp, entry_among};

use crate::ranks::{Rank, is_rank_ahead, ranks_of};
use adm_table::Shared;
use adm_types::{Child, ChildNo, School};
use std::alloc::{AllocError, Global};

/// A child on the waiting list of a school.
#[derive(Clone, Copy, Debug, PartialEq, Eq, PartialOrd, Ord)]
pub struct Waiting {
    /// From 1. Children that only a lot would separate have the same one.
    pub position: usize,
    pub child: ChildNo,
    /// From 0 to 9.
    pub class: u8,
    /// How far its home is from the school, in metres, rounded down.
    pub metres: u32,
}

/// How many of the ranks, which are in order, are ahead of this one.
fn count_ahead(ranks: &[Rank], one: &Rank) -> usize
    requires { IsSorted rank_cmp ranks.now }
    ensures value { result ≡ count_by (λ other. is_rank_ahead other one.now) ranks.now }
    ensures upper { result ≤ length ranks.now }
{
    ranks.partition_point(|other| is_rank_ahead(other, one))
}

/// The ranks' children, each with its position among them.
fn entries_of(alloc: Global, ranks: &[Rank]) -> Result<Vec<Waiting>, AllocError>
    requires { IsSorted rank_cmp ranks.now }
    ensures { IfOk result (λ list. list.items ≡ map (entry_among ranks.now) ranks.now) }
{
    let mut list = Vec::new(alloc);
    for index in 0..ranks.len() {
        let rank = ranks[index];
        list.push(Waiting {
            position: 1 + count_ahead(ranks, &rank),
            child: rank.child,
            class: rank.class,
            metres: rank.metres,
        })?;
    }
    Ok(list)
}

/// The waiting list of the school where these children wait, who come in the order of their
/// numbers. It takes memory for each child, and time for each, times the logarithm of how many they
/// are. Where it is an error, memory ran out.
pub fn waiting_list(
    alloc: Global,
    school: &School,
    children: &[Shared<Child>],
) -> Result<Vec<Waiting>, AllocError>
    requires school { IsTrue (is_school_in_range school.now) }
    requires children { All (λ child. is_child_in_range child ≡ true) children.now }
    requires numbers { IsStrictlySortedBy nat_cmp (map number_of_child children.now) }
    ensures value { IfOk result (λ list. list.items ≡ waiting_list school.now children.now) }
    ensures len { IfOk result (λ list. length list.items ≡ length children.now) }
    ensures entries { IfOk result (λ list. All (IsEntryFor children.now) list.items) }
{
    let mut ranks = ranks_of(alloc, school, children)?;
    ranks.sort_unstable();
    entries_of(alloc, &ranks)
}
