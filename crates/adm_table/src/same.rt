// Whether two rows are the same.
ghost use Rattle.std.specs.Prelude.{◌≡◌, Bool};
ghost use Rattle.adm_table.specs.Same.{is_same_school, is_same_child, is_same_application, is_same_place, is_same_left, is_same_draw, is_same_import};

use crate::Shared;
use adm_fields::child_refs;
use adm_types::{Application, Child, Draw, LeftPair, PlaceRow, Row, School};

/// A row, or a value in one, that can be compared with another.
pub trait Same {
    ghost same: { Self → Self → Bool };

    /// Whether the two are the same.
    fn is_same(&self, other: &Self) -> bool
        ensures { result ≡ same self.now other.now };
}

impl Same for School {
    ghost same = { is_same_school };

    fn is_same(&self, other: &School) -> bool {
        self.code == other.code
            && self.name.as_str() == other.name.as_str()
            && self.pan == other.pan
            && self.at == other.at
            && self.criteria.as_slice() == other.criteria.as_slice()
    }
}

impl Same for Child {
    ghost same = { is_same_child };

    fn is_same(&self, other: &Child) -> bool {
        child_refs(self).is_same(&child_refs(other))
    }
}

impl Same for Application {
    ghost same = { is_same_application };

    fn is_same(&self, other: &Application) -> bool {
        self.child == other.child
            && self.day == other.day
            && self.list.as_slice() == other.list.as_slice()
    }
}

impl Same for PlaceRow {
    ghost same = { is_same_place };

    fn is_same(&self, other: &PlaceRow) -> bool {
        self == other
    }
}

impl Same for LeftPair {
    ghost same = { is_same_left };

    fn is_same(&self, other: &LeftPair) -> bool {
        self == other
    }
}

impl Same for Draw {
    ghost same = { is_same_draw };

    fn is_same(&self, other: &Draw) -> bool {
        self.number == other.number
            && self.round == other.round
            && self.school == other.school
            && self.day == other.day
            && self.outcomes.as_slice() == other.outcomes.as_slice()
            && self.lots.as_slice() == other.lots.as_slice()
    }
}

impl Same for Row {
    ghost same = { is_same_import };

    fn is_same(&self, other: &Row) -> bool {
        self.child.is_same(&other.child)
            && self.day == other.day
            && self.preferences.as_slice() == other.preferences.as_slice()
    }
}

impl<T: Same> Same for Shared<T> {
    ghost same = { T.same };

    fn is_same(&self, other: &Shared<T>) -> bool {
        self.as_ref().is_same(other.as_ref())
    }
}
