// The two files of a register: found, connected to, created and closed; with the errors and the exit status of a line of the command line.
#![tactic(auto)]

mod cause;
mod connecting;
mod creating;
mod document;
mod ended;
mod exit;
mod fault;
mod found;
mod reporting;
mod rows;
mod trial;

pub use cause::Cause;
pub use connecting::{
    OpenError, Remainder, Untouched, before_open, changed, leave_unopened, open_file,
};
pub use creating::init;
pub use document::{Document, put};
pub use ended::{CloseResult, LineEnd, Remains, RunEnd, before_close, close_files};
pub use exit::Exit;
pub use fault::Fault;
pub use found::Found;
pub use reporting::{end, print_memory_fault, refuse_arguments};
pub use rows::{FileRows, NotOpened, Rows};
pub use trial::Trial;
