// The class of a child at a school.
ghost use Rattle.std.specs.Prelude.{◌≡◌, ◌≤◌, IsTrue, length};
ghost use Rattle.std.specs.List.{position_or_len, list_all};
ghost use Rattle.adm_types.specs.Limits.{is_school_in_range, is_child_in_range, is_on_map};
ghost use Rattle.adm_types.specs.Criteria.{is_criterion};
ghost use Rattle.adm_types.specs.Flags.{has_flag};
ghost use Rattle.adm_rank.specs.Class.{meets, class_of};

use crate::distances::is_nearer;
use adm_types::limits::is_listed;
use adm_types::{Child, Criterion, School};

/// Whether the bit of a flag, from 0 to 15, is among the flags.
fn has_flag(flags: u16, flag: u32) -> bool
    requires { flag ≤ 15 }
    ensures { result ≡ has_flag flags flag }
{
    (flags >> flag) % 2 == 1
}

/// Whether the child meets the criterion of the school.
fn meets(school: &School, child: &Child, criterion: Criterion) -> bool
    requires school { IsTrue (is_on_map school.now.at) }
    requires child { IsTrue (is_on_map child.now.home) }
    requires criterion { IsTrue (is_criterion criterion) }
    ensures { result ≡ meets school.now.code school.now.at child.now criterion }
{
    match criterion {
        Criterion::Sibling => is_listed(child.siblings.as_slice(), &school.code),
        Criterion::Catchment => is_listed(child.catchments.as_slice(), &school.code),
        Criterion::Within(metres) => is_nearer(school.at, child.home, metres + 1),
        Criterion::Flag(flag) => has_flag(child.flags, flag),
        Criterion::Feeder(feeder) => child.present == Some(feeder),
    }
}

/// The index, from 0, of the first criterion that the child meets, or the number of criteria.
fn first_met(school: &School, child: &Child, criteria: &[Criterion]) -> usize
    requires school { IsTrue (is_on_map school.now.at) }
    requires child { IsTrue (is_on_map child.now.home) }
    requires criteria { IsTrue (list_all is_criterion criteria.now) }
    ensures value { result ≡ position_or_len (meets school.now.code school.now.at child.now) criteria.now }
    ensures upper { result ≤ length criteria.now }
{
    match criteria.split_first() {
        None => 0,
        Some((criterion, _)) if meets(school, child, *criterion) => 0,
        Some((_, others)) => 1 + first_met(school, child, others),
    }
}

/// The class of the child at the school: 0 where it is or was looked after; else 1 plus the index,
/// from 0, of the first criterion that it meets; else 1 plus the number of criteria. It takes no
/// memory.
#[tactic(auto, unfolding(crate::specs::Class::class_of))]
pub fn class(school: &School, child: &Child) -> u8
    requires school { IsTrue (is_school_in_range school.now) }
    requires child { IsTrue (is_child_in_range child.now) }
    ensures value { result ≡ class_of school.now child.now }
    ensures upper { result ≤ 9 }
{
    if child.looked_after {
        return 0;
    }
    1 + first_met(school, child, school.criteria.as_slice()) as u8
}
