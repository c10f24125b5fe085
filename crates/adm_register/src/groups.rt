// The tables of a register in two groups, so that no function makes all of them.
// One that makes many values, each of which may fail, lets go at each of those before it.
ghost use Rattle.std.specs.Prelude.{◌≡◌, []};

use adm_table::{Shared, Table};
use adm_types::{
    Application, Child, ChildNo, Draw, LeftPair, PlaceRow, Row, School, SchoolCode, Season,
};

/// The season, its schools and children, and who applies.
pub(crate) struct Base {
    pub(crate) season: Season,
    pub(crate) schools: Table<SchoolCode, Shared<School>>,
    pub(crate) children: Table<ChildNo, Shared<Child>>,
    pub(crate) applications: Table<ChildNo, Shared<Application>>,
}

/// What results from it: places, the schools that children left, draws, and imported rows.
pub(crate) struct Course {
    pub(crate) places: Table<ChildNo, PlaceRow>,
    pub(crate) left: Table<LeftPair, LeftPair>,
    pub(crate) draws: Table<u32, Shared<Draw>>,
    pub(crate) imported: Table<ChildNo, Shared<Row>>,
}

// Written by hand, and not derived: what lets go of a group then calls this, in place of going
// through the steps of each of its tables.
impl Drop for Base {
    fn drop(self) {
        let Base {
            season: _,
            schools: _,
            children: _,
            applications: _,
        } = self;
    }
}

impl Drop for Course {
    fn drop(self) {
        let Course {
            places: _,
            left: _,
            draws: _,
            imported: _,
        } = self;
    }
}

impl Base {
    /// The season and no row.
    pub(crate) fn new(season: Season) -> Base
        ensures { result ≡ record { season = season; schools = []; children = []; applications = [] } }
    {
        Base {
            season,
            schools: Table::new(),
            children: Table::new(),
            applications: Table::new(),
        }
    }
}

impl Course {
    /// No row.
    pub(crate) fn new() -> Course
        ensures { result ≡ record { places = []; left = []; draws = []; imported = [] } }
    {
        Course {
            places: Table::new(),
            left: Table::new(),
            draws: Table::new(),
            imported: Table::new(),
        }
    }
}
