// Which schools each child wants, and the rows by which this is decided.
ghost use Rattle.std.specs.Prelude.{◌≡◌, IfOk, filter, not, option_copied, bytes_eq};
ghost use Rattle.std.specs.FinMap as rows;
ghost use Rattle.std.specs.List.{take_while};
ghost use Rattle.adm_register.specs.Wanted.{above, has_left, wanted_of, wanted, own_school};

use crate::tables::{Tables, is_plan};
use adm_table::Shared;
use adm_types::{Application, Child, ChildNo, Draw, LeftPair, PlaceRow, School, SchoolCode};
use std::alloc::{AllocError, Global};

impl Tables {
    /// The row of a child and a school that it left.
    fn left_pair(&self, pair: LeftPair) -> Option<&LeftPair>
        ensures { option_copied result ≡ rows.get self.now.left pair }
    {
        self.course.left.get(&pair)
    }

    /// Whether the child left the school.
    pub fn has_left(&self, child: ChildNo, school: SchoolCode) -> bool
        ensures { result ≡ has_left self.now.left child school }
    {
        self.left_pair(LeftPair { child, school }).is_some()
    }

    /// The schools of a list above the child's place: all of them where it has none.
    fn above(
        &self,
        alloc: Global,
        child: ChildNo,
        list: &[SchoolCode],
    ) -> Result<Vec<SchoolCode>, AllocError>
        ensures { IfOk result (λ codes. codes.items ≡ above (rows.get self.now.places child) list.now) }
    {
        match self.place_row(child) {
            None => list.iter().copied().collect(alloc),
            Some(row) => before(alloc, row.place.school, list),
        }
    }

    /// Those of the schools that the child has not left.
    fn not_left(
        &self,
        alloc: Global,
        child: ChildNo,
        codes: Vec<SchoolCode>,
    ) -> Result<Vec<SchoolCode>, AllocError>
        ensures { IfOk result (λ kept. kept.items ≡ filter (λ code. not (has_left self.now.left child code)) codes.items) }
    {
        codes
            .into_iter()
            .filter(|code| !self.has_left(child, *code))
            .collect(alloc)
    }

    /// The schools that the child of an application wants, the most wanted first.
    pub fn wanted_of(
        &self,
        alloc: Global,
        application: &Application,
    ) -> Result<Vec<SchoolCode>, AllocError>
        ensures { IfOk result (λ codes. codes.items ≡ wanted_of self.now application.now) }
    {
        let child = application.child;
        let codes = self.above(alloc, child, application.list.as_slice())?;
        self.not_left(alloc, child, codes)
    }

    /// The schools that a child wants, the most wanted first; none where it has no application.
    pub(crate) fn wanted(
        &self,
        alloc: Global,
        child: ChildNo,
    ) -> Result<Vec<SchoolCode>, AllocError>
        ensures { IfOk result (λ codes. codes.items ≡ wanted self.now child) }
    {
        match self.application(child) {
            None => Ok(Vec::new(alloc)),
            Some(application) => self.wanted_of(alloc, application),
        }
    }

    /// The school of which the child is a tenant.
    pub fn own_school(&self, child: ChildNo) -> Option<SchoolCode>
        ensures { result ≡ own_school (rows.get self.now.places child) }
    {
        match self.place_row(child) {
            None => None,
            Some(row) => {
                if is_plan(&row.place.state) {
                    None
                } else {
                    Some(row.place.school)
                }
            }
        }
    }

    /// The child of a number, as a row that can be shared.
    pub fn shared_child(&self, number: ChildNo) -> Option<&Shared<Child>>
        ensures { option_copied result ≡ rows.get self.now.children number }
    {
        self.base.children.get(&number)
    }

    /// The school of a code, as a row that can be shared.
    pub(crate) fn shared_school(&self, code: SchoolCode) -> Option<&Shared<School>>
        ensures { option_copied result ≡ rows.get self.now.schools code }
    {
        self.base.schools.get(&code)
    }

    /// The applications, by their children's numbers.
    pub fn all_applications(&self, alloc: Global) -> Result<Vec<Shared<Application>>, AllocError>
        ensures { IfOk result (λ found. found.items ≡ rows.values self.now.applications) }
    {
        self.base.applications.to_vec(alloc)
    }

    /// The children, by their numbers.
    pub fn all_children(&self, alloc: Global) -> Result<Vec<Shared<Child>>, AllocError>
        ensures { IfOk result (λ found. found.items ≡ rows.values self.now.children) }
    {
        self.base.children.to_vec(alloc)
    }

    /// The schools that children left, by the children's numbers and then by the schools' codes.
    pub fn all_left(&self, alloc: Global) -> Result<Vec<LeftPair>, AllocError>
        ensures { IfOk result (λ found. found.items ≡ rows.values self.now.left) }
    {
        self.course.left.to_vec(alloc)
    }

    /// The draws, by their numbers. It takes memory for a pointer to each draw.
    pub fn all_draws(&self, alloc: Global) -> Result<Vec<Shared<Draw>>, AllocError>
        ensures { IfOk result (λ found. found.items ≡ rows.values self.now.draws) }
    {
        self.course.draws.to_vec(alloc)
    }

    /// The places, by their children's numbers.
    pub fn all_places(&self, alloc: Global) -> Result<Vec<PlaceRow>, AllocError>
        ensures { IfOk result (λ found. found.items ≡ rows.values self.now.places) }
    {
        self.course.places.to_vec(alloc)
    }

    /// The schools, by their codes.
    pub fn all_schools(&self, alloc: Global) -> Result<Vec<Shared<School>>, AllocError>
        ensures { IfOk result (λ found. found.items ≡ rows.values self.now.schools) }
    {
        self.base.schools.to_vec(alloc)
    }
}

/// The codes of a list before the first that is this one.
fn before(
    alloc: Global,
    school: SchoolCode,
    list: &[SchoolCode],
) -> Result<Vec<SchoolCode>, AllocError>
    ensures { IfOk result (λ codes. codes.items ≡ take_while (λ code. not (bytes_eq code school)) list.now) }
{
    list.iter()
        .copied()
        .take_while(|code| *code != school)
        .collect(alloc)
}
