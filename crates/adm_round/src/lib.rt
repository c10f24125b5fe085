// A round: who ranks where by which lot, and who is allotted what.
#![tactic(auto)]

mod allotting;
mod applicants;
mod laws;
mod lots;
mod outcomes;
mod problems;
mod round_index;
mod wanting;

pub use allotting::allot;
pub use applicants::{Applicant, Pair, Site};
pub use laws::{allotment_fits, one_allotment, posed_without_fault};
pub use lots::{assign_lots, wanted_pairs};
pub use outcomes::{Totals, counts};
pub use problems::problem_of;
