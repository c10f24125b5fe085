// The values of a school-admissions season: what codes, numbers, days, rows and commands are.
#![tactic(auto)]

mod child_no;
mod code_lists;
mod commands;
mod criteria;
mod days;
mod draws;
mod exact;
mod fields;
mod flags;
pub mod limits;
mod rows;
mod school_code;
mod seasons;
mod seq;
mod text;

pub use child_no::ChildNo;
pub use code_lists::codes;
pub use commands::{Command, Refusal, Reply};
pub use criteria::{Criterion, came_later};
pub use days::Day;
pub use draws::{Draw, DrawRow, Lot, LotRow, OfferRow, Outcome};
pub use exact::Exact;
pub use fields::plain;
pub use flags::{Flag, flag_bits};
pub use rows::{
    Application, Child, LeftPair, Place, PlaceRow, PlaceState, Point, PresentRow, Row, School,
};
pub use school_code::SchoolCode;
pub use seasons::{Phase, Season, SeasonFault, Size};
pub use seq::Seq;
pub use text::Text;
