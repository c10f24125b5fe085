//! Lemmas on lists, maps, orders, options and numbers that the proofs of several crates cite.
//!
//! It names nothing of admissions, and has no code.
#![tactic(auto)]
