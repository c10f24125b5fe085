// The commands that change a register: when each is refused, what it changes, and what it answers.
#![tactic(auto)]

mod applicants;
mod child_values;
mod command_result;
mod commands;
mod failing;
mod kept;
mod not_done;
mod offered;
mod one_row;
mod pairs;
mod problems;
mod proposals;
mod what_ifs;

pub use not_done::NotDone;
pub use pairs::{fill_pairs, round_pairs};
pub use problems::{DrawFault, problem};
pub use proposals::{Proposal, propose};
pub use what_ifs::{QuestionFault, what_if};
