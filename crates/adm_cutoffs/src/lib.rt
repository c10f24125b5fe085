// The cutoffs of a draw, and whom it refused where and why.
//! The cutoffs of a draw of lots, and each refusal of a child at a school that it wants more than
//! what it has, with what decided it.
#![tactic(auto)]

mod cutoffs;
mod explanations;
mod keys;
mod outcomes;
mod reasons;
mod refusals;

pub use cutoffs::Cutoff;
pub use explanations::{Explanation, explain};
pub use reasons::Reason;
pub use refusals::Refusal;
