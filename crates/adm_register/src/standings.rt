// The positions of a child on the waiting lists of the schools that it wants.
ghost use Rattle.std.specs.Prelude.{◌≡◌, ◌≤◌, ◌^◌, ◌-◌, IfOk, IsTrue, Some, length, map, option_copied};
ghost use Rattle.std.specs.FinMap as rows;
ghost use Rattle.std.specs.List.{filter_map, list_all, position_or_len};
ghost use Rattle.std.specs.Map.{values_of};
ghost use Rattle.adm_register.specs.WellFormed.{WellFormed, has_first_round};
ghost use Rattle.adm_register.specs.Waits.{standings_of};
ghost use Rattle.adm_register.specs.Tallies.{tally_at, lists_tallied, has_school_in_range, with_application, with_applications, standing_in};

use crate::tables::Tables;
use adm_table::Shared;
use adm_types::limits::is_listed;
use adm_types::{Application, Child, ChildNo, PlaceRow, SchoolCode};
use adm_waiting::{Tally, Waiting};
use std::alloc::{AllocError, Global};
use std::collections::BTreeMap;

/// The position of a child on the waiting list of a school.
#[derive(Clone, Copy, PartialEq, Eq, Debug)]
pub struct Standing {
    /// Its entry on that list.
    pub entry: Waiting,
    /// How many children wait at the school.
    pub many: usize,
}

impl Tables {
    /// The position of the child at each school that it wants and waits at. The applications are
    /// walked once for all of them.
    pub(crate) fn standings_of(
        &self,
        alloc: Global,
        child: ChildNo,
    ) -> Result<Vec<(SchoolCode, Standing)>, AllocError>
        requires { WellFormed self.now }
        ensures { IfOk result (λ found. found.items ≡ standings_of self.now child) }
    {
        if !self.has_first_round() {
            return Ok(Vec::new(alloc));
        }
        let schools = self.wanted(alloc, child)?;
        let mut tallies = self.tallies_at(alloc, child, &schools)?;
        self.count_all(&mut tallies);
        standings_in(alloc, &tallies)
    }

    /// The child at each of these schools where it waits, before anybody is counted.
    fn tallies_at(
        &self,
        alloc: Global,
        child: ChildNo,
        schools: &[SchoolCode],
    ) -> Result<Vec<Tally>, AllocError>
        requires { WellFormed self.now }
        ensures { IfOk result (λ tallies. tallies.items ≡ filter_map (tally_at self.now child) schools.now) }
    {
        let mut tallies = Vec::new(alloc);
        for index in 0..schools.len() {
            let tally = self.tally_at(child, schools[index])?;
            if let Some(tally) = tally {
                tallies.push(tally)?;
            }
        }
        Ok(tallies)
    }

    /// The child at the school, if it waits there, before anybody is counted.
    fn tally_at(&self, child: ChildNo, school: SchoolCode) -> Result<Option<Tally>, AllocError>
        requires { WellFormed self.now }
        ensures { IfOk result (λ found. found ≡ tally_at self.now child school) }
    {
        if !self.is_waiting(child, school) {
            return Ok(None);
        }
        let Some(row) = self.shared_school(school) else {
            return Ok(None);
        };
        let Some(one) = self.child(child) else {
            return Ok(None);
        };
        let shared = row.clone()?;
        Ok(Some(Tally::new(shared, one)))
    }

    /// Counts the child of each application at those of the schools where it waits.
    fn count_all(&self, tallies: &mut [Tally])
        requires well_formed { WellFormed self.now }
        requires held { IsTrue (has_first_round self.now.draws) }
        requires in_range { IsTrue (list_all has_school_in_range tallies.old) }
        ensures value { tallies.new ≡ with_applications self.now tallies.old (rows.values self.now.applications) }
        ensures room { length (rows.values self.now.applications) ≤ 2 ^ 64 - 1 }
    {
        // read only so that the check sees that the rows are in the order of their keys, and that
        // they can be counted
        let _all = self.base.applications.len();
        for piece in self.base.applications.pieces() {
            self.count_piece(tallies, piece.rows());
        }
    }

    /// Counts the child of each application of a piece at those of the schools where it waits.
    fn count_piece(
        &self,
        tallies: &mut [Tally],
        applications: &BTreeMap<ChildNo, Shared<Application>>,
    )
        requires well_formed { WellFormed self.now }
        requires held { IsTrue (has_first_round self.now.draws) }
        requires in_range { IsTrue (list_all has_school_in_range tallies.old) }
        ensures { tallies.new ≡ with_applications self.now tallies.old (values_of applications.now.entries) }
    {
        for application in applications.values() {
            self.count(tallies, application.as_ref());
        }
    }

    /// Counts the child of the application at those of the schools where it waits. An application
    /// that lists none of them costs one look at its list; the child and its place are looked up
    /// once, where it lists one.
    fn count(&self, tallies: &mut [Tally], application: &Application)
        requires well_formed { WellFormed self.now }
        requires held { IsTrue (has_first_round self.now.draws) }
        requires in_range { IsTrue (list_all has_school_in_range tallies.old) }
        ensures { tallies.new ≡ map (with_application self.now application.now) tallies.old }
    {
        let first = first_listed(tallies, application.list.as_slice());
        if first == tallies.len() {
            return;
        }
        let Some(child) = self.child(application.child) else {
            return;
        };
        let place = self.place_row(application.child);
        for index in first..tallies.len() {
            self.count_at(&mut tallies[index], application, place, child);
        }
    }

    /// Counts the child of the application at one school, if it waits there.
    fn count_at(
        &self,
        tally: &mut Tally,
        application: &Application,
        place: Option<&PlaceRow>,
        child: &Child,
    )
        requires well_formed { WellFormed self.now }
        requires held { IsTrue (has_first_round self.now.draws) }
        requires in_range { IsTrue (has_school_in_range tally.old) }
        requires place { option_copied place ≡ rows.get self.now.places application.now.child }
        requires child { Some child.now ≡ rows.get self.now.children application.now.child }
        ensures { tally.new ≡ with_application self.now application.now tally.old }
    {
        let school = tally.school.as_ref();
        if self.wants_above(application, place, school.code) {
            tally.count(child);
        }
    }
}

/// The index of the first tally whose school is in the list, or the number of tallies.
fn first_listed(tallies: &[Tally], list: &[SchoolCode]) -> usize
    ensures { result ≡ position_or_len (lists_tallied list.now) tallies.now }
{
    for index in 0..tallies.len() {
        if is_listed(list, &tallies[index].school.as_ref().code) {
            return index;
        }
    }
    tallies.len()
}

/// What each tally says when all have been counted, beside its school's code.
fn standings_in(alloc: Global, tallies: &[Tally]) -> Result<Vec<(SchoolCode, Standing)>, AllocError>
    ensures { IfOk result (λ found. found.items ≡ map standing_in tallies.now) }
{
    tallies
        .iter()
        .map(|tally| standing_in(tally))
        .collect(alloc)
}

/// What a tally says when all have been counted, beside its school's code.
fn standing_in(tally: &Tally) -> (SchoolCode, Standing)
    ensures { result ≡ standing_in tally.now }
{
    let entry = Waiting {
        position: tally.position,
        child: tally.child,
        class: tally.class,
        metres: tally.metres,
    };
    let many = tally.many;
    (tally.school.as_ref().code, Standing { entry, many })
}
