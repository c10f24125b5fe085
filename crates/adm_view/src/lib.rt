// One JSON document of a register, without its lots, the entries of it by themselves, and one document of each draw with its lots.
//! One JSON document that says everything of a register but its lots and its imported rows, its
//! entry of one child or school, and one of a draw with its lots, its cutoffs and its refusals.
#![tactic(auto)]

mod children;
mod draws;
mod entries;
mod fault;
mod kinds;
mod members;
mod places;
mod preferences;
mod registers;
mod schools;
mod season;
mod waits;

pub use entries::{child_entry_text, school_entry_text};
pub use fault::ViewFault;
pub use registers::{draw_text, register_text};
