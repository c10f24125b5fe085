// The commands of a register, its replies, and why it refuses.
use crate::{Application, Child, ChildNo, Day, Row, School, SchoolCode, Seq};

/// A command to the register.
#[derive(Drop)]
pub enum Command {
    /// Adds a school.
    AddSchool(School),
    /// Raises the admission number of a school, which is none of a smaller number.
    RaisePan {
        school: SchoolCode,
        pan: u32,
    },
    /// Adds a child.
    AddChild(Child),
    /// Replaces a child's data.
    Amend(Child),
    /// Names a school in a child's plan: the child has its place there, and its application ends.
    NamePlan {
        child: ChildNo,
        school: SchoolCode,
    },
    /// Applies for a child on a day, with the schools in the order of its preference.
    Apply(Application),
    /// Holds a round: the number of its draw, its day, and its lots in the order of the schools'
    /// codes and then of the children's numbers.
    Round {
        draw: u32,
        day: Day,
        lots: Seq<u32>,
    },
    /// Accepts the place that a child was offered at a school.
    Accept {
        child: ChildNo,
        school: SchoolCode,
    },
    /// Declines the place that a child was offered at a school.
    Decline {
        child: ChildNo,
        school: SchoolCode,
    },
    /// Reminds, on a day, of an offer that was not answered, and warns that it may be withdrawn.
    Remind {
        child: ChildNo,
        school: SchoolCode,
        day: Day,
    },
    /// Withdraws an offer that was not answered, on a day 14 days after its reminder at the
    /// earliest.
    Lapse {
        child: ChildNo,
        school: SchoolCode,
        day: Day,
    },
    /// Takes a child off the waiting list of a school.
    LeaveList {
        child: ChildNo,
        school: SchoolCode,
    },
    /// Offers one vacancy of a school to the child that ranks first on its waiting list: the
    /// number of the draw, the school, the day, and a lot for each child that waits there, in the
    /// order of their numbers.
    Fill {
        draw: u32,
        school: SchoolCode,
        day: Day,
        lots: Seq<u32>,
    },
    /// Adds children with their applications, all of them or none. A row that was imported before
    /// is known, and changes nothing.
    Import(Seq<Row>),
}

/// What an accepted command answers.
#[derive(Clone, Copy, PartialEq, Eq, Debug)]
pub enum Reply {
    /// It was done.
    Done,
    /// A round was held: its number from 1, how many children were offered a school that they did
    /// not hold, how many keep the school that they held, and how many were allotted none.
    Round {
        round: u32,
        offers: u32,
        kept: u32,
        unplaced: u32,
    },
    /// One vacancy was offered to this child.
    Filled(ChildNo),
    /// An import was done: how many rows were added, and how many were known before.
    Imported {
        added: u64,
        known: u64,
    },
}

/// Why a command is refused: the first of its tests that fails. The numbers are part of the format.
#[derive(Clone, Copy, PartialEq, Eq, Debug)]
pub enum Refusal {
    UnknownSchool = 1,
    UnknownChild = 2,
    SchoolKnown = 3,
    ChildKnown = 4,
    BadText = 5,
    OutOfRange = 6,
    RegisterFull = 7,
    BadPreferences = 8,
    HasPlan = 9,
    AlreadyApplied = 10,
    TooSoon = 11,
    WrongDraw = 12,
    LotCount = 13,
    LotsRepeated = 14,
    NotOffered = 15,
    NotWaiting = 16,
    NoVacancy = 17,
    EmptyList = 18,
    ListClosed = 19,
    RowDiffers = 20,
    AlreadyReminded = 21,
    NotReminded = 22,
}
