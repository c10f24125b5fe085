// The program's command line: its arguments, read as actions.
//! The actions of a command line, from its arguments.
#![tactic(auto)]

mod actions;
mod command;
mod faults;
mod help;
mod joining;
mod lines;
mod pairs;
mod reading;
mod rules;
mod serving;
mod showing;
mod subcommands;

pub use actions::Action;
pub use faults::{WordsFault, fault_text};
pub use reading::action;
