// The fields that only commands have.
ghost use Rattle.std.specs.Prelude.{◌≡◌, ℕ, List, Option, None, codes};

use adm_fields::Field;
use adm_types::{Criterion, SchoolCode, Seq, Text};
use std::alloc::Global;

/// The name of a command.
pub(crate) struct Cmd;

impl Field for Cmd {
    type Value = Text;

    ghost name = { codes "cmd" };

    ghost otherwise = { None };

    fn name() -> &'static str {
        "cmd"
    }

    fn otherwise(_alloc: Global) -> Option<Text> {
        None
    }
}

/// A school, by its code.
pub(crate) struct SchoolField;

impl Field for SchoolField {
    type Value = SchoolCode;

    ghost name = { codes "school" };

    ghost otherwise = { None };

    fn name() -> &'static str {
        "school"
    }

    fn otherwise(_alloc: Global) -> Option<SchoolCode> {
        None
    }
}

/// A published admission number.
pub(crate) struct Pan;

impl Field for Pan {
    type Value = u32;

    ghost name = { codes "pan" };

    ghost otherwise = { None };

    fn name() -> &'static str {
        "pan"
    }

    fn otherwise(_alloc: Global) -> Option<u32> {
        None
    }
}

/// In order.
pub(crate) struct Criteria;

impl Field for Criteria {
    type Value = Seq<Criterion>;

    ghost name = { codes "criteria" };

    ghost otherwise = { None };

    fn name() -> &'static str {
        "criteria"
    }

    fn otherwise(_alloc: Global) -> Option<Seq<Criterion>> {
        None
    }
}

/// The number of a draw of lots.
pub(crate) struct Draw;

impl Field for Draw {
    type Value = u32;

    ghost name = { codes "draw" };

    ghost otherwise = { None };

    fn name() -> &'static str {
        "draw"
    }

    fn otherwise(_alloc: Global) -> Option<u32> {
        None
    }
}

/// In the order of the schools' codes and then of the children's numbers.
pub(crate) struct Lots;

impl Field for Lots {
    type Value = Seq<u32>;

    ghost name = { codes "lots" };

    ghost otherwise = { None };

    fn name() -> &'static str {
        "lots"
    }

    fn otherwise(_alloc: Global) -> Option<Seq<u32>> {
        None
    }
}
