// The key by which a child ranks at a school, and the order of keys.
ghost use Rattle.std.specs.Prelude.{◌≡◌, IsTrue};
ghost use Rattle.adm_types.specs.Limits.{is_school_in_range, is_child_in_range};
ghost use Rattle.adm_rank.specs.Ranking.{key_of, precedes};

use crate::classes::class;
use crate::distances::distance;
use adm_types::{Child, School};

/// By what a child ranks at a school: the class, then the distance in metres, then the lot. The
/// smaller key ranks first.
#[derive(Clone, Copy, Debug, PartialEq, Eq, PartialOrd, Ord)]
pub struct RankKey {
    pub class: u8,
    pub distance: u32,
    pub lot: u32,
}

impl RankKey {
    /// Whether this key ranks before the other one.
    pub fn ranks_before(self, other: RankKey) -> bool
        ensures { result ≡ precedes self other }
    {
        self < other
    }
}

/// The key of the child at the school, with its lot there. It takes no memory.
pub fn key(school: &School, child: &Child, lot: u32) -> RankKey
    requires school { IsTrue (is_school_in_range school.now) }
    requires child { IsTrue (is_child_in_range child.now) }
    ensures { result ≡ key_of school.now child.now lot }
{
    RankKey {
        class: class(school, child),
        distance: distance(school.at, child.home),
        lot,
    }
}
