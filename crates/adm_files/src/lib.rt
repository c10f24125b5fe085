// The register in a file: how a desk over it is opened, and what is done with it but serving: lines, imports, documents.
#![tactic(auto)]

mod closing;
mod imports;
mod lines;
mod opening;
mod outcome;
mod printing;
mod registers;

pub use closing::close;
pub use imports::import;
pub use lines::{answer_questions, do_lines};
pub use printing::print;
pub use registers::{HostRegisters, Registers, before_opening};
