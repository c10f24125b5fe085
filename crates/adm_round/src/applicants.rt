// Who takes part in a round: its schools, its children with what they want, and the pairs of both.
use adm_table::Shared;
use adm_types::{Child, ChildNo, School, SchoolCode, Seq};

/// A child of a round.
#[derive(Drop)]
pub struct Applicant {
    pub child: Shared<Child>,
    /// The schools that it wants, the most wanted first.
    pub wanted: Seq<SchoolCode>,
    /// The school of which it is a tenant, if any. Its list in the round ends with it.
    pub own: Option<SchoolCode>,
}

/// A school of a round, and how many places it has in it.
#[derive(Drop)]
pub struct Site {
    pub school: Shared<School>,
    pub quota: u32,
}

/// A school, and a child that wants it. Pairs come by the school, and then by the child.
#[derive(Clone, Copy, Debug, PartialEq, Eq, PartialOrd, Ord)]
pub struct Pair {
    pub school: SchoolCode,
    pub child: ChildNo,
}
