//! Tables of rows by their keys, which a change copies in small parts and shares in all others.
#![tactic(auto)]

mod keyed;
mod kinds;
mod pieces;
mod same;
mod shared;
mod table;

pub use keyed::Keyed;
pub use pieces::Piece;
pub use same::Same;
pub use shared::Shared;
pub use table::Table;
