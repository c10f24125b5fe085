// Laws of a desk: commands one after another over two files, a crash, and the start after it. The program calls none of them.
#![tactic(auto)]

mod crashes;
mod files;
mod handler;
mod laws;
mod restart;

pub use crashes::{CommandRun, NotHandled, run_commands, run_until_crash};
pub use files::{close_files, open_files};
pub use handler::handle_all;
pub use laws::{one_after, rounds_are_recorded, rounds_stay};
pub use restart::CrashOutcome;
