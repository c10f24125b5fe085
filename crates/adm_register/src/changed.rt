// The rows after a change.
ghost use Rattle.std.specs.Prelude.{◌≡◌, IfOk};
ghost use Rattle.adm_register.specs.Change.{after};
ghost use Rattle.adm_register.specs.Groups.{IsBaseOf, IsCourseOf};

use crate::Difference;
use crate::groups::{Base, Course};
use crate::tables::Tables;
use std::alloc::{AllocError, Global};

impl Tables {
    /// The rows after the change. The tables that it does not touch are shared.
    pub fn after(&self, alloc: Global, change: &Difference) -> Result<Tables, AllocError>
        ensures { IfOk result (λ new. new ≡ after self.now change.now) }
    {
        Ok(Tables {
            base: self.base_after(alloc, change)?,
            course: self.course_after(alloc, change)?,
        })
    }

    /// The first tables after the change.
    fn base_after(&self, alloc: Global, change: &Difference) -> Result<Base, AllocError>
        ensures { IfOk result (λ base. IsBaseOf base (after self.now change.now)) }
    {
        let base = &self.base;
        Ok(Base {
            season: base.season.clone()?,
            schools: base
                .schools
                .with_all(alloc, &[], change.schools.as_slice())?,
            children: base
                .children
                .with_all(alloc, &[], change.children.as_slice())?,
            applications: base.applications.with_all(
                alloc,
                change.ended.as_slice(),
                change.applications.as_slice(),
            )?,
        })
    }

    /// The others.
    fn course_after(&self, alloc: Global, change: &Difference) -> Result<Course, AllocError>
        ensures { IfOk result (λ course. IsCourseOf course (after self.now change.now)) }
    {
        let course = &self.course;
        Ok(Course {
            places: course
                .places
                .with_all(alloc, change.vacated.as_slice(), change.places.as_slice())?,
            left: course.left.with_all(alloc, &[], change.left.as_slice())?,
            draws: course.draws.with_all(alloc, &[], change.draws.as_slice())?,
            imported: course
                .imported
                .with_all(alloc, &[], change.imported.as_slice())?,
        })
    }
}
