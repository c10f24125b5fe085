// A day as texts and documents write it.
//! A day as texts and documents write it: YYYY-MM-DD.
#![tactic(auto)]

mod days;

pub use days::day_text;
