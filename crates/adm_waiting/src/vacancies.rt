// Who gets a vacancy: the child that ranks before all others by class, distance and lot.
ghost use Rattle.std.specs.Prelude.{◌≡◌, ℕ, ◌<◌, IsTrue, true, false, map, length, All, Contains, IfSome, is_some};
ghost use Rattle.std.specs.List.{zip};
ghost use Rattle.std.specs.List.Sorted.{IsStrictlySortedBy};
ghost use Rattle.std.specs.Ordering.{nat_cmp};
ghost use Rattle.adm_types.specs.Limits.{is_school_in_range, is_child_in_range};
ghost use Rattle.adm_waiting.specs.Waiting.{number_of_child, first_by_lot, repeats};
ghost use Rattle.adm_waiting.specs.Ranks.{ranked_child_of, better, best_of, is_before, is_before_others};

use adm_rank::{RankKey, key};
use adm_table::Shared;
use adm_types::{Child, ChildNo, School};

/// A child with its key by its lot.
#[derive(Clone, Copy)]
struct RankedChild {
    child: ChildNo,
    key: RankKey,
}

/// The child with its key by its lot.
fn ranked_child_of(school: &School, child: &Child, lot: u32) -> RankedChild
    requires school { IsTrue (is_school_in_range school.now) }
    requires child { IsTrue (is_child_in_range child.now) }
    ensures { result ≡ ranked_child_of school.now (child.now, lot) }
{
    RankedChild {
        child: child.no,
        key: key(school, child, lot),
    }
}

/// The one that ranks first, of the one so far and the next.
fn better(best: Option<RankedChild>, next: RankedChild) -> RankedChild
    ensures { result ≡ better best next }
{
    match best {
        Some(best) if !next.key.ranks_before(best.key) => best,
        _ => next,
    }
}

/// The child before which none ranks, with its key; of several, the one with the smallest number.
fn best_of(school: &School, children: &[Shared<Child>], lots: &[u32]) -> Option<RankedChild>
    requires school { IsTrue (is_school_in_range school.now) }
    requires children { All (λ child. is_child_in_range child ≡ true) children.now }
    ensures { result ≡ best_of (map (ranked_child_of school.now) (zip children.now lots.now)) }
{
    let mut best = None;
    for index in 0..children.len().min(lots.len()) {
        let next = ranked_child_of(school, children[index].as_ref(), lots[index]);
        best = Some(better(best, next));
    }
    best
}

/// Whether the other one is the same child, or the one ranks before it.
fn is_before(one: &RankedChild, other: &RankedChild) -> bool
    ensures { result ≡ is_before one.now other.now }
{
    other.child == one.child || one.key.ranks_before(other.key)
}

/// Whether the child ranks before all others.
fn is_before_others(
    school: &School,
    children: &[Shared<Child>],
    lots: &[u32],
    one: &RankedChild,
) -> bool
    requires school { IsTrue (is_school_in_range school.now) }
    requires children { All (λ child. is_child_in_range child ≡ true) children.now }
    ensures { result ≡ is_before_others (map (ranked_child_of school.now) (zip children.now lots.now)) one.now }
{
    for index in 0..children.len().min(lots.len()) {
        let other = ranked_child_of(school, children[index].as_ref(), lots[index]);
        if !is_before(one, &other) {
            return false;
        }
    }
    true
}

/// The child that ranks before all others at the school, by class, distance and lot, of those that
/// wait, who come in the order of their numbers. The first lot is the first child's, and so on; a
/// child without a lot does not count. None where nobody has one, or where two rank first with equal
/// lots. It takes no memory, and time for each child.
pub fn first_by_lot(school: &School, children: &[Shared<Child>], lots: &[u32]) -> Option<ChildNo>
    requires school { IsTrue (is_school_in_range school.now) }
    requires children { All (λ child. is_child_in_range child ≡ true) children.now }
    requires numbers { IsStrictlySortedBy nat_cmp (map number_of_child children.now) }
    ensures first { result ≡ first_by_lot school.now children.now lots.now }
    ensures waits { IfSome result (λ child. Contains (map number_of_child children.now) child) }
    ensures some { 0 < length children.now → length lots.now ≡ length children.now → repeats lots.now ≡ false → is_some result ≡ true }
{
    let best = best_of(school, children, lots)?;
    if is_before_others(school, children, lots, &best) {
        Some(best.child)
    } else {
        None
    }
}
