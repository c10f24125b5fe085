// What each line of the command line does, over registers that are opened by their paths, a reader and writers.
#![tactic(auto)]

mod run;
mod serving;

pub use run::{run_arguments, run_words};
