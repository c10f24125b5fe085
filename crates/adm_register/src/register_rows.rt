// The rows of a register, as lists.
use adm_types::{
    Application, Child, DrawRow, LeftPair, LotRow, OfferRow, PlaceRow, Row, School, Season, Seq,
};

/// The rows of a register: its season, and each table's rows.
#[derive(Drop)]
pub struct Rows {
    pub season: Season,
    /// The schools, by their codes.
    pub schools: Seq<School>,
    /// The children, by their numbers.
    pub children: Seq<Child>,
    /// The applications, by their children's numbers.
    pub applications: Seq<Application>,
    /// The places, by their children's numbers.
    pub places: Seq<PlaceRow>,
    /// The schools that children left, by the child's number and then by the school's code.
    pub left: Seq<LeftPair>,
    /// The draws, by their numbers.
    pub draws: Seq<DrawRow>,
    /// The outcomes of all draws, by the draw's number and then by the child's.
    pub offers: Seq<OfferRow>,
    /// The lots of all draws, by the draw's number, then by the school's code, and then by the child's number.
    pub lots: Seq<LotRow>,
    /// The imported rows, by their children's numbers.
    pub imported: Seq<Row>,
}
