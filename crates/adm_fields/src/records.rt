// Records as lists of fields, and records of the values of their fields.
ghost use Rattle.std.specs.Prelude.{◌≡◌};
ghost use Rattle.adm_fields.specs.Records.{refs_are, stored_child, others, home_of, child_of, application_of, import_of, bare_import_of};

use crate::child::{
    Catchments, ChildField, Day, East, Flags, LookedAfter, Name, North, Preferences, Present,
    Siblings, SiblingsAndCatchments,
};
use adm_types::{Application, Child, ChildNo, Point, Row, SchoolCode, Seq, Text};

/// The fields of a child that must be there, of which the last is this one, and then others.
type HomeWith<Last, Others> = (
    ChildField,
    (
        Name,
        (East, (North, (LookedAfter, (Flags, (Last, Others))))),
    ),
);

/// The fields of a child that must be there, and then others.
pub type HomeFields<Others> = HomeWith<Siblings, Others>;

/// The fields of a child that may be omitted. In a file they are the last.
pub type OptionalFields = (Present, (Catchments, ()));

/// The day and the preferences of an application, and then others.
pub type WishFields<Others> = (Day, (Preferences, Others));

/// The fields of a child in JSON.
pub type ChildFields = HomeFields<OptionalFields>;

/// The fields of an application, in JSON and as columns of a table.
pub type ApplicationFields = (ChildField, WishFields<()>);

/// The fields of an imported row, as columns of a file.
pub type ImportFields = HomeFields<WishFields<OptionalFields>>;

/// The fields of a child, as columns of a table. Present schools have a table of their own.
pub type ChildColumns = HomeWith<SiblingsAndCatchments, ()>;

/// The fields of an imported row, as columns of a table.
pub type ImportColumns = HomeWith<SiblingsAndCatchments, WishFields<()>>;

type HomeValues<Last, Others> = (ChildNo, (Text, (u32, (u32, (bool, (u16, (Last, Others)))))));

/// The values of the fields of a child that must be there, and then others.
pub type ChildValues<Others> = HomeValues<Seq<SchoolCode>, Others>;

/// The values of the columns of a child, and then others.
pub type StoredValues<Others> = HomeValues<(Seq<SchoolCode>, Seq<SchoolCode>), Others>;

/// The values of the fields of a child that may be omitted.
pub type OptionalValues = (Option<SchoolCode>, (Seq<SchoolCode>, ()));

/// References to the values of the fields of a child.
pub type ChildRefs<'a> = (
    &'a ChildNo,
    (
        &'a Text,
        (
            &'a u32,
            (
                &'a u32,
                (
                    &'a bool,
                    (
                        &'a u16,
                        (
                            &'a Seq<SchoolCode>,
                            (&'a Option<SchoolCode>, (&'a Seq<SchoolCode>, ())),
                        ),
                    ),
                ),
            ),
        ),
    ),
);

/// The values of the fields of a child, for what compares them without a copy.
pub fn child_refs(child: &Child) -> ChildRefs<'_>
    ensures { refs_are child.now result }
{
    let home = (
        &child.home.east,
        (
            &child.home.north,
            (
                &child.looked_after,
                (
                    &child.flags,
                    (&child.siblings, (&child.present, (&child.catchments, ()))),
                ),
            ),
        ),
    );
    (&child.no, (&child.name, home))
}

pub fn child_of(values: ChildValues<OptionalValues>) -> Child
    ensures { result ≡ child_of values }
{
    let (
        no,
        (name, (east, (north, (looked_after, (flags, (siblings, (present, (catchments, ())))))))),
    ) = values;
    Child {
        no,
        name,
        home: Point { east, north },
        looked_after,
        flags,
        siblings,
        present,
        catchments,
    }
}

fn stored_child<Others: Drop>(values: StoredValues<Others>) -> (Child, Others)
    ensures { (result.0 ≡ stored_child values) × (result.1 ≡ others values) }
{
    let (no, (name, (east, (north, (looked_after, (flags, (schools, others))))))) = values;
    let (siblings, catchments) = schools;
    let child = Child {
        no,
        name,
        home: Point { east, north },
        looked_after,
        flags,
        siblings,
        present: None,
        catchments,
    };
    (child, others)
}

/// A child without a present school, as its row in a table has it.
pub fn home_of(values: StoredValues<()>) -> Child
    ensures { result ≡ home_of values }
{
    stored_child(values).0
}

/// An imported row without a present school, as its row in a table has it.
pub fn bare_import_of(values: StoredValues<(adm_types::Day, (Seq<SchoolCode>, ()))>) -> Row
    ensures { result ≡ bare_import_of values }
{
    let (child, (day, (preferences, ()))) = stored_child(values);
    Row {
        child,
        day,
        preferences,
    }
}

pub fn application_of(values: (ChildNo, (adm_types::Day, (Seq<SchoolCode>, ())))) -> Application
    ensures { result ≡ application_of values }
{
    let (child, (day, (list, ()))) = values;
    Application { child, day, list }
}

pub fn import_of(values: ChildValues<(adm_types::Day, (Seq<SchoolCode>, OptionalValues))>) -> Row
    ensures { result ≡ import_of values }
{
    let (no, (name, (east, (north, (looked_after, (flags, (siblings, others))))))) = values;
    let (day, (preferences, last)) = others;
    Row {
        child: child_of((
            no,
            (
                name,
                (east, (north, (looked_after, (flags, (siblings, last))))),
            ),
        )),
        day,
        preferences,
    }
}
