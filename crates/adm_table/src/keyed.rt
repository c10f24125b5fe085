// Rows that have their keys in them, and where.
ghost use Rattle.std.specs.Prelude.{◌≡◌};

use adm_types::{Application, Child, ChildNo, Draw, LeftPair, PlaceRow, Row, School, SchoolCode};

/// A row that has its key in it.
pub trait Keyed<K> {
    ghost key: { Self → K };

    /// The key of the row.
    fn key(&self) -> K
        ensures { result ≡ key self.now };
}

impl Keyed<SchoolCode> for School {
    ghost key = { λ school. school.code };

    fn key(&self) -> SchoolCode {
        self.code
    }
}

impl Keyed<ChildNo> for Child {
    ghost key = { λ child. child.no };

    fn key(&self) -> ChildNo {
        self.no
    }
}

impl Keyed<ChildNo> for Application {
    ghost key = { λ application. application.child };

    fn key(&self) -> ChildNo {
        self.child
    }
}

impl Keyed<ChildNo> for PlaceRow {
    ghost key = { λ row. row.child };

    fn key(&self) -> ChildNo {
        self.child
    }
}

impl Keyed<ChildNo> for Row {
    ghost key = { λ row. row.child.no };

    fn key(&self) -> ChildNo {
        self.child.no
    }
}

impl Keyed<LeftPair> for LeftPair {
    ghost key = { λ pair. pair };

    fn key(&self) -> LeftPair {
        *self
    }
}

impl Keyed<u32> for Draw {
    ghost key = { λ draw. draw.number };

    fn key(&self) -> u32 {
        self.number
    }
}
