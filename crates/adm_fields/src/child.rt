// The fields of a child and of its application: the name of each, the type of its value, and its value where it is omitted.
ghost use Rattle.std.specs.Prelude.{◌≡◌, ℕ, List, Option, None, Some, codes, []};

use crate::Field;
use adm_types::{ChildNo, SchoolCode, Seq, Text};
use std::alloc::Global;

/// A child, by its number.
pub struct ChildField;

impl Field for ChildField {
    type Value = ChildNo;

    ghost name = { codes "child" };

    ghost otherwise = { None };

    fn name() -> &'static str {
        "child"
    }

    fn otherwise(_alloc: Global) -> Option<ChildNo> {
        None
    }
}

pub struct Name;

impl Field for Name {
    type Value = Text;

    ghost name = { codes "name" };

    ghost otherwise = { None };

    fn name() -> &'static str {
        "name"
    }

    fn otherwise(_alloc: Global) -> Option<Text> {
        None
    }
}

/// Metres.
pub struct East;

impl Field for East {
    type Value = u32;

    ghost name = { codes "east" };

    ghost otherwise = { None };

    fn name() -> &'static str {
        "east"
    }

    fn otherwise(_alloc: Global) -> Option<u32> {
        None
    }
}

/// Metres.
pub struct North;

impl Field for North {
    type Value = u32;

    ghost name = { codes "north" };

    ghost otherwise = { None };

    fn name() -> &'static str {
        "north"
    }

    fn otherwise(_alloc: Global) -> Option<u32> {
        None
    }
}

pub struct LookedAfter;

impl Field for LookedAfter {
    type Value = bool;

    ghost name = { codes "looked_after" };

    ghost otherwise = { None };

    fn name() -> &'static str {
        "looked_after"
    }

    fn otherwise(_alloc: Global) -> Option<bool> {
        None
    }
}

/// Bit `f` is flag `f`.
pub struct Flags;

impl Field for Flags {
    type Value = u16;

    ghost name = { codes "flags" };

    ghost otherwise = { None };

    fn name() -> &'static str {
        "flags"
    }

    fn otherwise(_alloc: Global) -> Option<u16> {
        None
    }
}

/// The schools that siblings attend.
pub struct Siblings;

impl Field for Siblings {
    type Value = Seq<SchoolCode>;

    ghost name = { codes "siblings" };

    ghost otherwise = { None };

    fn name() -> &'static str {
        "siblings"
    }

    fn otherwise(_alloc: Global) -> Option<Seq<SchoolCode>> {
        None
    }
}

/// The same column of a table, in which the catchment schools follow.
pub struct SiblingsAndCatchments;

impl Field for SiblingsAndCatchments {
    type Value = (Seq<SchoolCode>, Seq<SchoolCode>);

    ghost name = { codes "siblings" };

    ghost otherwise = { None };

    fn name() -> &'static str {
        "siblings"
    }

    fn otherwise(_alloc: Global) -> Option<(Seq<SchoolCode>, Seq<SchoolCode>)> {
        None
    }
}

/// The present school; none where it is omitted.
pub struct Present;

impl Field for Present {
    type Value = Option<SchoolCode>;

    ghost name = { codes "present" };

    ghost otherwise = { Some None };

    fn name() -> &'static str {
        "present"
    }

    fn otherwise(_alloc: Global) -> Option<Option<SchoolCode>> {
        Some(None)
    }
}

pub struct Day;

impl Field for Day {
    type Value = adm_types::Day;

    ghost name = { codes "day" };

    ghost otherwise = { None };

    fn name() -> &'static str {
        "day"
    }

    fn otherwise(_alloc: Global) -> Option<adm_types::Day> {
        None
    }
}

/// Schools in order.
pub struct Preferences;

impl Field for Preferences {
    type Value = Seq<SchoolCode>;

    ghost name = { codes "preferences" };

    ghost otherwise = { None };

    fn name() -> &'static str {
        "preferences"
    }

    fn otherwise(_alloc: Global) -> Option<Seq<SchoolCode>> {
        None
    }
}

/// The schools in whose catchment areas the child lives; none where it is omitted.
pub struct Catchments;

impl Field for Catchments {
    type Value = Seq<SchoolCode>;

    ghost name = { codes "catchments" };

    ghost otherwise = { Some [] };

    fn name() -> &'static str {
        "catchments"
    }

    fn otherwise(alloc: Global) -> Option<Seq<SchoolCode>> {
        Some(Seq::new(alloc))
    }
}
