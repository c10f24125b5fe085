//! Draws of lots as rows of three tables, and back; and which draws may be in a register.
#![tactic(auto)]

mod checks;
mod gathering;
mod keys;
mod order;
mod repeats;
mod rows;

pub use checks::is_draw;
pub use gathering::draws_of;
pub use repeats::has_repeated_lot;
pub use rows::{draw_rows, lot_rows, offer_rows};
