// Applications as a file of comma-separated values: bytes in, rows of an import out.
//! The rows of an import, read from a file of comma-separated values.
#![tactic(auto)]

mod cell;
mod cells;
mod fault;
mod input;
mod kinds;
mod row;
mod rows;
mod scan;

pub use fault::{Fault, RowFault};
pub use rows::read_rows;
