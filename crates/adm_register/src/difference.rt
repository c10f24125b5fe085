// The rows by which one register differs from another.
ghost use Rattle.std.specs.Prelude.{◌≡◌};
ghost use Rattle.adm_register.specs.Change.{no_change};
ghost use Rattle.adm_register.specs.Difference.{differing};

use crate::tables::Tables;
use adm_table::Shared;
use adm_types::{Application, Child, ChildNo, Draw, LeftPair, PlaceRow, Row, School, Seq};
use std::alloc::Global;

/// The rows of a new register that the old one has not, each table's in the order of its key, and
/// the keys of those that ended.
pub struct Difference {
    pub schools: Seq<Shared<School>>,
    pub children: Seq<Shared<Child>>,
    pub applications: Seq<Shared<Application>>,
    pub places: Seq<PlaceRow>,
    pub left: Seq<LeftPair>,
    pub draws: Seq<Shared<Draw>>,
    pub imported: Seq<Shared<Row>>,
    /// The children that had an application and have none.
    pub ended: Seq<ChildNo>,
    /// The children that had a place and have none.
    pub vacated: Seq<ChildNo>,
}

// Written by hand, and not derived: what lets go of a difference then calls this, in place of going
// through its nine lists.
impl Drop for Difference {
    fn drop(self) {
        let Difference {
            schools: _,
            children: _,
            applications: _,
            places: _,
            left: _,
            draws: _,
            imported: _,
            ended: _,
            vacated: _,
        } = self;
    }
}

impl Difference {
    /// No row is written and none is deleted. It takes no memory.
    pub fn none(alloc: Global) -> Difference
        ensures { result ≡ no_change }
    {
        Difference {
            schools: Seq::new(alloc),
            children: Seq::new(alloc),
            applications: Seq::new(alloc),
            places: Seq::new(alloc),
            left: Seq::new(alloc),
            draws: Seq::new(alloc),
            imported: Seq::new(alloc),
            ended: Seq::new(alloc),
            vacated: Seq::new(alloc),
        }
    }

    /// What of it differs from the rows of these tables. It takes no memory, and its cost grows with
    /// the change.
    pub(crate) fn differing_from(self, tables: &Tables) -> Difference
        ensures { result ≡ differing tables.now self }
    {
        let Difference {
            schools,
            children,
            applications,
            places,
            left,
            draws,
            imported,
            ended,
            vacated,
        } = self;
        let (base, course) = (&tables.base, &tables.course);
        Difference {
            schools: base.schools.lacked(schools),
            children: base.children.lacked(children),
            applications: base.applications.lacked(applications),
            places: course.places.lacked(places),
            left: course.left.lacked(left),
            draws: course.draws.lacked(draws),
            imported: course.imported.lacked(imported),
            ended: base.applications.known(ended),
            vacated: course.places.known(vacated),
        }
    }
}
