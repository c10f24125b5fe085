// The desk: commands over a register and its file, one after another, from a reader to a writer.
#![tactic(auto)]

mod answer;
mod desk;
mod lines;
mod questions;
mod run;

pub use answer::{Answer, LineAnswer, WhatIfAnswer};
pub use desk::Desk;
pub use run::{Run, RunFault};
