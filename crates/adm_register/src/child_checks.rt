// Whether children, their applications and imported rows are a register's.
ghost use Rattle.std.specs.Prelude.{◌≡◌, ◌&&◌, length};
ghost use Rattle.adm_types.specs.Limits.{is_from, is_without_repeat, most_preferences};
ghost use Rattle.adm_types.specs.Seasons.{lists_end};
ghost use Rattle.adm_register.specs.RowTests.{fits_child, is_child, fits_application, is_application, fits_import};

use crate::checks::RowCheck;
use crate::tables::Tables;
use adm_types::limits::{MOST_PREFERENCES, is_child_of_size, is_name, is_without_repeat};
use adm_types::{Application, Child, ChildNo, Day, Row, SchoolCode};

impl RowCheck<ChildNo> for Child {
    ghost fits = { λ s. fits_child s.season.size s.schools };

    fn fits_in(&self, tables: &Tables, number: &ChildNo) -> bool {
        self.no == *number && is_child(tables, self)
    }
}

/// Whether a child's name and numbers are in the limits of the season's size, and its siblings' and
/// catchment schools are there.
fn is_child(tables: &Tables, child: &Child) -> bool
    ensures { result ≡ is_child tables.now.season.size tables.now.schools child.now }
{
    // read only so that the check sees what their types keep
    let _number = child.no.get();
    let _text = child.name.as_str();
    let _flags = child.flags;
    let size = tables.season().size();
    is_name(&child.name) && is_child_of_size(size, child) && tables.has_schools_of(child)
}

impl RowCheck<ChildNo> for Application {
    ghost fits = { λ s. fits_application (lists_end s.season) s.schools s.children };

    fn fits_in(&self, tables: &Tables, number: &ChildNo) -> bool {
        self.child == *number && is_application(tables, self.child, self.day, self.list.as_slice())
    }
}

/// Whether the child is there, the day is one of the lists, and there are 1 to 10 schools that are
/// there, none twice.
fn is_application(tables: &Tables, child: ChildNo, day: Day, list: &[SchoolCode]) -> bool
    ensures { result ≡ is_application (lists_end tables.now.season) tables.now.schools tables.now.children (record { child = child; day = day; list = list.now }) }
{
    // read only so that the check sees that it is one
    let _day = day.number();
    tables.has_child(child)
        && day <= tables.season().lists_end()
        && is_preference_list(list)
        && tables.are_schools(list)
}

/// Whether there are 1 to 10 schools, none twice.
pub fn is_preference_list(list: &[SchoolCode]) -> bool
    ensures { result ≡ (is_from 1 most_preferences (length list.now) && is_without_repeat list.now) }
{
    let count = 1 <= list.len() && list.len() <= MOST_PREFERENCES;
    count && is_without_repeat(list)
}

impl RowCheck<ChildNo> for Row {
    ghost fits = { λ s. fits_import s.season.size (lists_end s.season) s.schools s.children };

    fn fits_in(&self, tables: &Tables, number: &ChildNo) -> bool {
        let child = self.child.no;
        let list = self.preferences.as_slice();
        self.child.fits_in(tables, number)
            && child == *number
            && is_application(tables, child, self.day, list)
    }
}
