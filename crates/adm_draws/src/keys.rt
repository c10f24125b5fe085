// The keys by which draws and their rows are put in order.
ghost use Rattle.std.specs.Prelude.{◌≡◌};

use adm_types::{ChildNo, DrawRow, Lot, LotRow, OfferRow, Outcome, SchoolCode};

/// A row that has in it the key by which it is put in order.
pub(crate) trait Ordered<K> {
    ghost sort_key: { Self → K };

    /// The key of the row.
    fn sort_key(&self) -> K
        ensures { result ≡ sort_key self.now };
}

/// The key of a lot: the school, and then the child.
#[derive(Clone, Copy, Debug, PartialEq, Eq, PartialOrd, Ord)]
pub(crate) struct LotKey {
    pub(crate) school: SchoolCode,
    pub(crate) child: ChildNo,
}

/// The key of an outcome's row: the draw, and then the child.
#[derive(Clone, Copy, Debug, PartialEq, Eq, PartialOrd, Ord)]
pub(crate) struct OfferRowKey {
    pub(crate) draw: u32,
    pub(crate) child: ChildNo,
}

/// The key of a lot's row: the draw, and then the key of the lot.
#[derive(Clone, Copy, Debug, PartialEq, Eq, PartialOrd, Ord)]
pub(crate) struct LotRowKey {
    pub(crate) draw: u32,
    pub(crate) lot: LotKey,
}

/// A lot at a school, whoever drew it.
#[derive(Clone, Copy, Debug, PartialEq, Eq, PartialOrd, Ord)]
pub(crate) struct DrawnLot {
    pub(crate) school: SchoolCode,
    pub(crate) lot: u32,
}

impl Ordered<u32> for DrawRow {
    ghost sort_key = { λ row. row.draw };

    fn sort_key(&self) -> u32 {
        self.draw
    }
}

impl Ordered<ChildNo> for Outcome {
    ghost sort_key = { λ outcome. outcome.child };

    fn sort_key(&self) -> ChildNo {
        self.child
    }
}

impl Ordered<LotKey> for Lot {
    ghost sort_key = { λ lot. record { school = lot.school; child = lot.child } };

    fn sort_key(&self) -> LotKey {
        LotKey {
            school: self.school,
            child: self.child,
        }
    }
}

impl Ordered<OfferRowKey> for OfferRow {
    ghost sort_key = { λ row. record { draw = row.draw; child = row.outcome.child } };

    fn sort_key(&self) -> OfferRowKey {
        OfferRowKey {
            draw: self.draw,
            child: self.outcome.child,
        }
    }
}

impl Ordered<LotRowKey> for LotRow {
    ghost sort_key = { λ row. record { draw = row.draw; lot = record { school = row.lot.school; child = row.lot.child } } };

    fn sort_key(&self) -> LotRowKey {
        LotRowKey {
            draw: self.draw,
            lot: self.lot.sort_key(),
        }
    }
}

impl Ordered<DrawnLot> for DrawnLot {
    ghost sort_key = { λ lot. lot };

    fn sort_key(&self) -> DrawnLot {
        *self
    }
}
