// The rows of a register in the groups of its tables.
use adm_types::{
    Application, Child, DrawRow, LeftPair, LotRow, OfferRow, PlaceRow, Row, School, Season, Seq,
};

/// The rows of the first tables.
#[derive(Drop)]
pub(crate) struct BaseRows {
    pub(crate) season: Season,
    pub(crate) schools: Seq<School>,
    pub(crate) children: Seq<Child>,
    pub(crate) applications: Seq<Application>,
}

/// The rows of the others.
#[derive(Drop)]
pub(crate) struct CourseRows {
    pub(crate) places: Seq<PlaceRow>,
    pub(crate) left: Seq<LeftPair>,
    pub(crate) drawn: DrawRows,
    pub(crate) imported: Seq<Row>,
}

/// The rows of the draws.
#[derive(Drop)]
pub(crate) struct DrawRows {
    pub(crate) draws: Seq<DrawRow>,
    pub(crate) offers: Seq<OfferRow>,
    pub(crate) lots: Seq<LotRow>,
}
