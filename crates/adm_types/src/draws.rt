// Draws of lots, and their outcomes: the rows of rounds and fills.
use crate::{ChildNo, Day, Exact, SchoolCode, Seq};

/// The outcome of a round or a fill for one child: the school that it was allotted, if one, and
/// whether that was not its place before.
#[derive(Clone, Copy, PartialEq, Eq, Debug)]
pub struct Outcome {
    pub child: ChildNo,
    pub school: Option<SchoolCode>,
    pub fresh: bool,
}

/// The lot that was drawn for a child at a school. The smaller lot ranks first.
#[derive(Clone, Copy, PartialEq, Eq, Debug)]
pub struct Lot {
    pub school: SchoolCode,
    pub child: ChildNo,
    pub lot: u32,
}

/// A draw of lots for a round or a fill, and its outcomes.
#[derive(Clone)]
pub struct Draw {
    /// From 1, over rounds and fills together.
    pub number: u32,
    /// The number of the round from 1, or 0 for a fill.
    pub round: u32,
    /// The school of a fill; none for a round.
    pub school: Option<SchoolCode>,
    pub day: Day,
    /// One for each entrant of the round, or for the child of the fill, by their numbers.
    pub outcomes: Seq<Outcome>,
    /// By the codes of the schools, and then by the numbers of the children.
    pub lots: Seq<Lot>,
}

impl Drop for Draw {
    fn drop(self) {
        let Draw {
            number: _,
            round: _,
            school: _,
            day: _,
            outcomes: _,
            lots: _,
        } = self;
    }
}

/// A draw without its outcomes and lots.
#[derive(Clone, Copy, PartialEq, Eq, Debug)]
pub struct DrawRow {
    pub draw: u32,
    pub round: u32,
    pub school: Option<SchoolCode>,
    pub day: Day,
}

/// An outcome of the draw of this number.
#[derive(Clone, Copy, PartialEq, Eq, Debug)]
pub struct OfferRow {
    pub draw: u32,
    pub outcome: Outcome,
}

/// A lot of the draw of this number.
#[derive(Clone, Copy, PartialEq, Eq, Debug)]
pub struct LotRow {
    pub draw: u32,
    pub lot: Lot,
}

impl Exact for Outcome {
    ghost use Rattle.std.proofs.Common.{rules};

    ghost clones_are_equal = { Prim.search rules };
}

impl Exact for Lot {
    ghost use Rattle.std.proofs.Common.{rules};

    ghost clones_are_equal = { Prim.search rules };
}

impl Exact for Draw {
    ghost use Rattle.std.proofs.Common.{rules};

    ghost clones_are_equal = { Prim.search rules };
}

impl Exact for DrawRow {
    ghost use Rattle.std.proofs.Common.{rules};

    ghost clones_are_equal = { Prim.search rules };
}

impl Exact for OfferRow {
    ghost use Rattle.std.proofs.Common.{rules};

    ghost clones_are_equal = { Prim.search rules };
}

impl Exact for LotRow {
    ghost use Rattle.std.proofs.Common.{rules};

    ghost clones_are_equal = { Prim.search rules };
}

impl Exact for u32 {
    ghost use Rattle.std.proofs.Common.{rules};

    ghost clones_are_equal = { Prim.search rules };
}
