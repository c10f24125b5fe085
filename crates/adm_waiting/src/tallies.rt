// The position of a child at a school, as those that wait there are counted one after another.
ghost use Rattle.std.specs.Prelude.{◌≡◌, IsTrue};
ghost use Rattle.adm_types.specs.Limits.{is_school_in_range, is_child_in_range};
ghost use Rattle.adm_waiting.specs.Tallies.{is_ahead_of, tally_of, with_child};

use adm_rank::{class, distance, is_nearer};
use adm_table::Shared;
use adm_types::{Child, ChildNo, School};

/// A child at a school, among those that wait there and were counted.
#[derive(Drop)]
pub struct Tally {
    pub school: Shared<School>,
    pub child: ChildNo,
    /// The child's class at the school, from 0 to 9.
    pub class: u8,
    /// How far its home is from the school, in metres, rounded down.
    pub metres: u32,
    /// 1 plus how many of those counted are ahead of the child.
    pub position: usize,
    /// How many were counted.
    pub many: usize,
}

impl Tally {
    /// The child at the school, before anybody is counted. It takes no memory.
    pub fn new(school: Shared<School>, child: &Child) -> Tally
        requires school { IsTrue (is_school_in_range school) }
        requires child { IsTrue (is_child_in_range child.now) }
        ensures { result ≡ tally_of school child.now }
    {
        let class = class(school.as_ref(), child);
        let metres = distance(school.as_ref().at, child.home);
        Tally {
            school,
            child: child.no,
            class,
            metres,
            position: 1,
            many: 0,
        }
    }

    /// Whether another child is ahead of this one: it has a smaller class at the school, or the same
    /// class and a smaller distance.
    fn is_ahead(&self, other: &Child) -> bool
        requires school { IsTrue (is_school_in_range self.now.school) }
        requires child { IsTrue (is_child_in_range other.now) }
        ensures { result ≡ is_ahead_of self.now other.now }
    {
        let school = self.school.as_ref();
        let class = class(school, other);
        class < self.class || (class == self.class && is_nearer(school.at, other.home, self.metres))
    }

    /// Counts one of those that wait at the school. Neither number passes the greatest of its type.
    /// It takes no memory.
    pub fn count(&mut self, other: &Child)
        requires school { IsTrue (is_school_in_range self.old.school) }
        requires child { IsTrue (is_child_in_range other.now) }
        ensures { self.new ≡ with_child self.old other.now }
    {
        if self.is_ahead(other) {
            self.position = self.position.saturating_add(1);
        }
        self.many = self.many.saturating_add(1);
    }
}
