// The matching of children to schools: the best stable allocation of a problem.
#![tactic(auto)]

mod acceptance;
mod allotment;
mod claims;
mod directory;
mod faults;
mod held;
mod places;
mod problem;
mod progress;
mod relisting;
mod repeats;
mod what_ifs;

pub use acceptance::offers;
pub use allotment::Offers;
pub use held::HeldByIndex;
pub use problem::{BadProblem, Entrant, Problem, Seats, Wish};
pub use what_ifs::{WhatIfFault, what_if};
