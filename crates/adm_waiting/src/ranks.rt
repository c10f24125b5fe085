// Children by what determines their positions at a school.
ghost use Rattle.std.specs.Prelude.{◌≡◌, IfOk, IsTrue, true, map, All};
ghost use Rattle.adm_types.specs.Limits.{is_school_in_range, is_child_in_range};
ghost use Rattle.adm_waiting.specs.Ranks.{rank_of, is_rank_ahead, IsRankInRange};

use adm_rank::{class, distance};
use adm_table::Shared;
use adm_types::{Child, ChildNo, School};
use std::alloc::{AllocError, Global};

/// A child by its class at a school, then by its distance there in metres, then by its number.
#[derive(Clone, Copy, PartialEq, Eq, PartialOrd, Ord)]
pub(crate) struct Rank {
    pub(crate) class: u8,
    pub(crate) metres: u32,
    pub(crate) child: ChildNo,
}

/// The child by its class and distance at the school.
pub(crate) fn rank_of(school: &School, child: &Child) -> Rank
    requires school { IsTrue (is_school_in_range school.now) }
    requires child { IsTrue (is_child_in_range child.now) }
    ensures value { result ≡ rank_of school.now child.now }
    ensures in_range { IsRankInRange result }
{
    Rank {
        class: class(school, child),
        metres: distance(school.at, child.home),
        child: child.no,
    }
}

/// Whether the other one has a smaller class, or the same class and a smaller distance.
pub(crate) fn is_rank_ahead(other: &Rank, one: &Rank) -> bool
    ensures { result ≡ is_rank_ahead other.now one.now }
{
    other.class < one.class || (other.class == one.class && other.metres < one.metres)
}

/// The children by their classes and distances at the school.
pub(crate) fn ranks_of(
    alloc: Global,
    school: &School,
    children: &[Shared<Child>],
) -> Result<Vec<Rank>, AllocError>
    requires school { IsTrue (is_school_in_range school.now) }
    requires children { All (λ child. is_child_in_range child ≡ true) children.now }
    ensures value { IfOk result (λ ranks. ranks.items ≡ map (rank_of school.now) children.now) }
    ensures in_range { IfOk result (λ ranks. All IsRankInRange ranks.items) }
{
    let mut ranks = Vec::new(alloc);
    for index in 0..children.len() {
        ranks.push(rank_of(school, children[index].as_ref()))?;
    }
    Ok(ranks)
}
