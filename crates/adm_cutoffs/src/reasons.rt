// Why a child is refused at a school.
ghost use Rattle.std.specs.Prelude.{◌≡◌};
ghost use Rattle.adm_cutoffs.specs.Reasons.{reason_after, reason_beside};

use adm_rank::RankKey;

/// Why a child is refused at a school.
#[derive(Clone, Copy, Debug, PartialEq, Eq)]
pub enum Reason {
    /// The school took in nobody: all its places were held before.
    NoPlace,
    /// The last child that it took in has a smaller class.
    ByClass,
    /// That child has the same class, and lives nearer.
    ByDistance,
    /// That child has the same class and distance, and a smaller lot.
    ByLot,
}

/// Why a key is after the last one; none where it is not.
fn reason_after(last: RankKey, key: RankKey) -> Option<Reason>
    ensures { result ≡ reason_after last key }
{
    if last.class < key.class {
        Some(Reason::ByClass)
    } else if last.class == key.class && last.distance < key.distance {
        Some(Reason::ByDistance)
    } else if last.class == key.class && last.distance == key.distance && last.lot < key.lot {
        Some(Reason::ByLot)
    } else {
        None
    }
}

/// Why a child of this key is refused at a school where this is the last key, or that took in
/// nobody.
pub(crate) fn reason_beside(last: Option<RankKey>, key: Option<RankKey>) -> Option<Reason>
    ensures { result ≡ reason_beside last key }
{
    match last {
        None => Some(Reason::NoPlace),
        Some(last) => reason_after(last, key?),
    }
}
