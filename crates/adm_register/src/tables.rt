// The rows of a register as tables, without any invariant, and what is read off them.
ghost use Rattle.std.specs.Prelude.{◌≡◌, Some, option_copied, count_by};
ghost use Rattle.std.specs.FinMap as map;
ghost use Rattle.std.specs.Map.{values_of};
ghost use Rattle.adm_register.specs.Plans.{has_plan};
ghost use Rattle.adm_register.specs.Rows.{place_of, places_at, vacancies, is_counted};
ghost use Rattle.adm_register.specs.State.{only_season, is_plan};
ghost use Rattle.adm_register.specs.WellFormed.{are_schools, has_schools_of, places_outside_plans, is_unplanned_at, has_first_round};

use crate::groups::{Base, Course};
use adm_table::{Keyed, Piece};
use adm_types::{
    Application, Child, ChildNo, Draw, LeftPair, Place, PlaceRow, PlaceState, Row, School,
    SchoolCode, Season,
};
use std::marker::Model;

/// A season and tables of rows, which need not be a register's. Queries of them take no
/// memory, where nothing else is said.
pub struct Tables {
    pub(crate) base: Base,
    pub(crate) course: Course,
}

impl Drop for Tables {
    fn drop(self) {
        let Tables { base: _, course: _ } = self;
    }
}

impl Model for Tables {
    ghost use Rattle.adm_register.specs.State.{State};
    ghost use Rattle.adm_register.specs.CodedState.{coded_state};
    ghost use Rattle.adm_register.specs.Groups.{state_of};

    ghost Value = { State };

    ghost coded = { coded_state };

    ghost view = { λ r. state_of r.base r.course };
}

impl Tables {
    pub(crate) fn new(season: Season) -> Tables
        ensures { result ≡ only_season season }
    {
        Tables {
            base: Base::new(season),
            course: Course::new(),
        }
    }

    /// The season.
    pub fn season(&self) -> &Season
        ensures { result.now ≡ self.now.season }
    {
        &self.base.season
    }

    /// The school of a code.
    pub fn school(&self, code: SchoolCode) -> Option<&School>
        ensures { option_copied result ≡ map.get self.now.schools code }
    {
        self.base.schools.row(&code)
    }

    /// The child of a number.
    pub fn child(&self, number: ChildNo) -> Option<&Child>
        ensures { option_copied result ≡ map.get self.now.children number }
    {
        self.base.children.row(&number)
    }

    pub(crate) fn application(&self, number: ChildNo) -> Option<&Application>
        ensures { option_copied result ≡ map.get self.now.applications number }
    {
        self.base.applications.row(&number)
    }

    /// The imported row of a child.
    pub fn imported_row(&self, child: ChildNo) -> Option<&Row>
        ensures { option_copied result ≡ map.get self.now.imported child }
    {
        self.course.imported.row(&child)
    }

    /// The row of the child's place.
    pub fn place_row(&self, child: ChildNo) -> Option<&PlaceRow>
        ensures { option_copied result ≡ map.get self.now.places child }
    {
        self.course.places.get(&child)
    }

    /// The child's place.
    pub(crate) fn place(&self, child: ChildNo) -> Option<Place>
        ensures { result ≡ place_of self.now child }
    {
        match self.place_row(child) {
            Some(row) => Some(row.place),
            None => None,
        }
    }

    /// Whether there is a school of this code.
    pub fn has_school(&self, code: SchoolCode) -> bool
        ensures { result ≡ map.contains_key self.now.schools code }
    {
        self.school(code).is_some()
    }

    /// Whether there is a child of this number.
    pub fn has_child(&self, number: ChildNo) -> bool
        ensures { result ≡ map.contains_key self.now.children number }
    {
        self.child(number).is_some()
    }

    /// Whether the child has an application.
    pub fn has_application(&self, number: ChildNo) -> bool
        ensures { result ≡ map.contains_key self.now.applications number }
    {
        self.application(number).is_some()
    }

    /// Whether the child's place is that of a plan.
    pub fn has_plan(&self, child: ChildNo) -> bool
        ensures { result ≡ has_plan self.now.places child }
    {
        match self.place_row(child) {
            None => false,
            Some(row) => is_plan(&row.place.state),
        }
    }

    /// Whether the child has a place at the school that is not that of a plan.
    pub fn is_outside_plan(&self, child: ChildNo, school: SchoolCode) -> bool
        ensures { result ≡ is_unplanned_at (map.get self.now.places child) school }
    {
        match self.place_row(child) {
            None => false,
            Some(row) => is_unplanned_at(row, school),
        }
    }

    /// Whether each code is that of a school that is there.
    pub fn are_schools(&self, codes: &[SchoolCode]) -> bool
        ensures { result ≡ are_schools self.now.schools codes.now }
    {
        codes.iter().all(|code| self.has_school(*code))
    }

    /// Whether each school of the child's siblings, and each in whose catchment area it lives, is
    /// there.
    pub fn has_schools_of(&self, child: &Child) -> bool
        ensures { result ≡ has_schools_of self.now.schools child.now }
    {
        self.are_schools(child.siblings.as_slice()) && self.are_schools(child.catchments.as_slice())
    }

    /// How many schools there are.
    pub fn school_count(&self) -> usize
        ensures { result ≡ map.len self.now.schools }
    {
        self.base.schools.len()
    }

    /// How many children there are.
    pub fn child_count(&self) -> usize
        ensures { result ≡ map.len self.now.children }
    {
        self.base.children.len()
    }

    /// How many places there are at the school: all, or all but those of a plan.
    fn count_places(&self, code: SchoolCode, with_plans: bool) -> usize
        ensures { result ≡ count_by (is_counted with_plans code) (map.values self.now.places) }
    {
        // read only so that the check sees that the rows are in the order of their keys
        let _all = self.course.places.len();
        let mut count = 0;
        for piece in self.course.places.pieces() {
            count += count_in_piece(piece, code, with_plans);
        }
        count
    }

    /// How many places there are at the school.
    fn places_at(&self, code: SchoolCode) -> usize
        ensures { result ≡ places_at self.now code }
    {
        self.count_places(code, true)
    }

    /// How many places at the school are not those of a plan.
    pub(crate) fn places_outside_plans(&self, code: SchoolCode) -> usize
        ensures { result ≡ places_outside_plans self.now.places code }
    {
        self.count_places(code, false)
    }

    /// The draw of a number.
    pub fn draw(&self, number: u32) -> Option<&Draw>
        ensures { option_copied result ≡ map.get self.now.draws number }
    {
        self.course.draws.row(&number)
    }

    /// Whether a round was held.
    pub fn has_first_round(&self) -> bool
        ensures { result ≡ has_first_round self.now.draws }
    {
        self.draw(1).is_some()
    }

    /// The school's admission number less all places there, not below 0.
    pub fn vacancies(&self, code: SchoolCode) -> Option<u32>
        ensures { result ≡ vacancies self.now code }
    {
        match self.school(code) {
            None => None,
            Some(school) => {
                let pan = school.pan as usize;
                Some(pan.saturating_sub(self.places_at(code)) as u32)
            }
        }
    }
}

/// How many of the places of a piece are at the school: all, or all but those of a plan.
fn count_in_piece(places: &Piece<ChildNo, PlaceRow>, code: SchoolCode, with_plans: bool) -> usize
    ensures { result ≡ count_by (is_counted with_plans code) (values_of places.now.rows.value.entries) }
{
    places
        .rows()
        .values()
        .filter(|row| is_counted(row, code, with_plans))
        .count()
}

/// Whether this is a place at the school, which may also be that of a plan or not.
fn is_counted(row: &PlaceRow, code: SchoolCode, with_plans: bool) -> bool
    ensures { result ≡ is_counted with_plans code row.now }
{
    if with_plans {
        row.place.school == code
    } else {
        is_unplanned_at(row, code)
    }
}

/// Whether this is a place at the school, and not that of a plan.
fn is_unplanned_at(row: &PlaceRow, code: SchoolCode) -> bool
    ensures { result ≡ is_unplanned_at (Some row.now) code }
{
    row.place.school == code && !is_plan(&row.place.state)
}

/// Whether a place in this state is that of a plan.
pub fn is_plan(state: &PlaceState) -> bool
    ensures { result ≡ is_plan state.now }
{
    match state {
        PlaceState::Offered { .. } | PlaceState::Accepted => false,
        PlaceState::Plan => true,
    }
}
