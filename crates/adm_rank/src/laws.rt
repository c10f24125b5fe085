// The laws of the order of keys: it is strict and total, and keys compare by it.
ghost use Rattle.adm_rank.specs.Ranking.{ComparesByRank, IsStrictOrder};

use crate::RankKey;

/// The order of keys is strict, and of two keys with different lots one ranks before the other.
pub fn order_is_total()
    ensures { IsStrictOrder }
{}

/// Keys compare as they rank, wherever values that hold them are compared, sorted or put on a heap:
/// the less of two keys is the one that ranks before the other.
pub fn keys_compare_by_rank()
    ensures { ComparesByRank ⟦<RankKey as Ord>⟧.cmp }
{}
