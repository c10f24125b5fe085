// Whether one of many keys is repeated.
ghost use Rattle.std.specs.Prelude.{◌≡◌, IfOk};
ghost use Rattle.std.specs.Ordering.{is_eq};
ghost use Rattle.adm_match.specs.Market.{some_pair};

use std::alloc::{AllocError, Global};
use std::collections::BTreeSet;

/// Whether a key is repeated. The cost grows with the keys, times their logarithm.
pub(crate) fn has_repeat<K: Ord + Copy>(alloc: Global, keys: &[K]) -> Result<bool, AllocError>
    ensures { IfOk result (λ answer. answer ≡ some_pair (λ a b. is_eq (K.cmp a b)) keys.now) }
{
    let mut seen = BTreeSet::new(alloc);
    for index in 0..keys.len() {
        let added = seen.insert(keys[index])?;
        if !added {
            return Ok(true);
        }
    }
    Ok(false)
}
