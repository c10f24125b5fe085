// Rows put in the order of their keys.
ghost use Rattle.std.specs.Prelude.{◌≡◌, List, IsPermutation, IfSome, IfNone, true};
ghost use Rattle.std.specs.List.{IsDistinct};
ghost use Rattle.std.specs.Ordering.{on, eq_by_cmp};
ghost use Rattle.adm_draws.specs.Draws.{rises};
ghost use Rattle.adm_draws.specs.Grouped.{comes_first};

use crate::keys::Ordered;
use std::cmp::Ordering;

/// Whether the key of each row is below those of all that follow. It takes no memory, and time
/// that grows with the rows.
pub(crate) fn rises<K: Ord + Drop, V: Ordered<K>>(rows: &[V]) -> bool
    ensures { result ≡ rises (on V.sort_key K.cmp) rows.now }
{
    let mut rest = rows;
    while let Some((first, others)) = rest.split_first() {
        if !comes_first(first, others) {
            return false;
        }
        rest = others;
    }
    true
}

/// Whether the key of a row is below that of the first of the others.
fn comes_first<K: Ord + Drop, V: Ordered<K>>(row: &V, others: &[V]) -> bool
    ensures { result ≡ comes_first (on V.sort_key K.cmp) row.now others.now }
{
    match others.first() {
        None => true,
        Some(next) => row.sort_key().cmp(&next.sort_key()) == Ordering::Less,
    }
}

/// The rows in the order of their keys; `None` where two have one key. No other order of them
/// rises. It takes no memory, and time that grows with the rows, times their logarithm.
pub(crate) fn in_order<K: Ord + Drop, V: Ordered<K> + Drop>(rows: Vec<V>) -> Option<Vec<V>>
    ensures made { IfSome result (λ sorted. IsPermutation rows.items sorted.items × (rises (on V.sort_key K.cmp) sorted.items ≡ true)) }
    ensures distinct { IfSome result (λ sorted. IsDistinct (eq_by_cmp (on V.sort_key K.cmp)) rows.items) }
    ensures only { IfSome result (λ sorted. (list : List V) → IsPermutation rows.items list → rises (on V.sort_key K.cmp) list ≡ true → list ≡ sorted.items) }
    ensures none { IfNone result ((list : List V) → IsPermutation rows.items list → rises (on V.sort_key K.cmp) list ≡ true → ⊥) }
    ensures repeated { IfNone result (IsDistinct (eq_by_cmp (on V.sort_key K.cmp)) rows.items → ⊥) }
{
    let mut rows = rows;
    rows.sort_unstable_by_key(|row| row.sort_key());
    if rises(&rows) { Some(rows) } else { None }
}
