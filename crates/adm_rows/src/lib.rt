//! The rows of a register as the tables of a SQLite file hold them: their forms, which register a file represents, and how it is read.
#![tactic(auto)]

mod fault;
mod laws;
pub mod lists;
mod reading;

pub use fault::OpenFault;
pub use laws::one_register;
pub use reading::register_in;
