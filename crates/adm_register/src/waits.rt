// Who waits at which school.
ghost use Rattle.std.specs.Prelude.{◌≡◌, ◌++◌, IfOk, OnOk, filter, not, bytes_eq, option_copied};
ghost use Rattle.std.specs.FinMap as rows;
ghost use Rattle.std.specs.List.{filter_map, take_while};
ghost use Rattle.std.specs.Map.{values_of};
ghost use Rattle.adm_types.specs.Limits.{is_listed};
ghost use Rattle.adm_register.specs.Wanted.{above, wanted_of};
ghost use Rattle.adm_register.specs.Waits.{waits, is_waiting, lists_some, waiting_child, waiting_at};

use crate::tables::Tables;
use adm_table::Shared;
use adm_types::limits::is_listed;
use adm_types::{Application, Child, ChildNo, PlaceRow, SchoolCode};
use std::alloc::{AllocError, Global};
use std::collections::BTreeMap;

impl Tables {
    /// Whether the child of an application, which has this place, wants the school.
    pub(crate) fn wants_above(
        &self,
        application: &Application,
        place: Option<&PlaceRow>,
        school: SchoolCode,
    ) -> bool
        requires { option_copied place ≡ rows.get self.now.places application.now.child }
        ensures { result ≡ is_listed (wanted_of self.now application.now) school }
    {
        is_above(place, application.list.as_slice(), school)
            && !self.has_left(application.child, school)
    }

    /// Whether the child of an application wants the school.
    fn wants(&self, application: &Application, school: SchoolCode) -> bool
        ensures { result ≡ is_listed (wanted_of self.now application.now) school }
    {
        let place = self.place_row(application.child);
        self.wants_above(application, place, school)
    }

    /// Whether the child of an application waits at the school. It takes no memory. Most do not
    /// list the school, so that is looked at first.
    #[tactic(auto, using(crate::proofs::WaitLemmas::unlisted))]
    pub(crate) fn waits(&self, application: &Application, school: SchoolCode) -> bool
        ensures { result ≡ waits self.now application.now school }
    {
        if !is_listed(application.list.as_slice(), &school) {
            return false;
        }
        self.has_first_round() && self.wants(application, school)
    }

    /// Whether the child waits at the school. It takes no memory.
    pub fn is_waiting(&self, child: ChildNo, school: SchoolCode) -> bool
        ensures { result ≡ is_waiting self.now child school }
    {
        match self.application(child) {
            None => false,
            Some(application) => self.waits(application, school),
        }
    }

    /// The child of an application, if it waits at the school.
    fn waiting_child(
        &self,
        school: SchoolCode,
        application: &Application,
    ) -> Result<Option<Shared<Child>>, AllocError>
        ensures { IfOk result (λ found. found ≡ waiting_child self.now school application.now) }
    {
        if !self.waits(application, school) {
            return Ok(None);
        }
        match self.shared_child(application.child) {
            None => Ok(None),
            Some(child) => Ok(Some(child.clone()?)),
        }
    }

    /// The applications that list one of the schools, by their children's numbers. It takes memory
    /// for a pointer to each of them, and time for each application.
    pub(crate) fn listing(
        &self,
        alloc: Global,
        schools: &[SchoolCode],
    ) -> Result<Vec<Shared<Application>>, AllocError>
        ensures { IfOk result (λ found. found.items ≡ filter (lists_some schools.now) (rows.values self.now.applications)) }
    {
        let mut found = Vec::new(alloc);
        for piece in self.base.applications.pieces() {
            add_listing(&mut found, schools, piece.rows())?;
        }
        Ok(found)
    }

    /// The children of these applications that wait at the school.
    pub(crate) fn waiting_of(
        &self,
        alloc: Global,
        school: SchoolCode,
        applications: &[Shared<Application>],
    ) -> Result<Vec<Shared<Child>>, AllocError>
        ensures { IfOk result (λ found. found.items ≡ filter_map (waiting_child self.now school) applications.now) }
    {
        let mut found = Vec::new(alloc);
        for index in 0..applications.len() {
            let application = applications[index].as_ref();
            if let Some(child) = self.waiting_child(school, application)? {
                found.push(child)?;
            }
        }
        Ok(found)
    }

    /// Who waits at the school, by their numbers. It takes memory for two pointers to each
    /// application that lists the school, and time for each application.
    pub fn waiting_at(
        &self,
        alloc: Global,
        school: SchoolCode,
    ) -> Result<Vec<Shared<Child>>, AllocError>
        ensures { IfOk result (λ found. found.items ≡ waiting_at self.now school) }
    {
        let applications = self.listing(alloc, &[school])?;
        self.waiting_of(alloc, school, &applications)
    }
}

/// Whether the school is one of the list above a place: one of the whole list where there is none.
fn is_above(place: Option<&PlaceRow>, list: &[SchoolCode], school: SchoolCode) -> bool
    ensures { result ≡ is_listed (above (option_copied place.entry) list.now) school }
{
    match place {
        None => is_listed(list, &school),
        Some(row) => is_before(list, row.place.school, school),
    }
}

/// Whether the application lists one of the schools.
fn lists_some(application: &Application, schools: &[SchoolCode]) -> bool
    ensures { result ≡ lists_some schools.now application.now }
{
    application
        .list
        .as_slice()
        .iter()
        .any(|school| is_listed(schools, school))
}

/// Adds those of the applications that list one of the schools.
fn add_listing(
    found: &mut Vec<Shared<Application>>,
    schools: &[SchoolCode],
    applications: &BTreeMap<ChildNo, Shared<Application>>,
) -> Result<(), AllocError>
    ensures { OnOk result (found.new.items ≡ found.old.items ++ filter (lists_some schools.now) (values_of applications.now.entries)) }
{
    for application in applications.values() {
        if lists_some(application.as_ref(), schools) {
            found.push(application.clone()?)?;
        }
    }
    Ok(())
}

/// Whether the school is in a list before the first that is another one.
fn is_before(list: &[SchoolCode], other: SchoolCode, school: SchoolCode) -> bool
    ensures { result ≡ is_listed (take_while (λ code. not (bytes_eq code other)) list.now) school }
{
    list.iter()
        .take_while(|code| **code != other)
        .any(|code| *code == school)
}
