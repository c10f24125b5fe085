// Laws of runs of the program, one after another. The program calls none of them.
#![tactic(auto)]

mod birth;
mod found_again;
mod once_more;
mod runs;
mod serving;

pub use birth::first_runs;
pub use found_again::answered_is_found;
pub use once_more::run_once_more;
pub use runs::{next_run, runs_in_order};
pub use serving::{serve_and_keep, served_is_kept};
