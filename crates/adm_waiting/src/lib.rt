// The waiting list of a school, a child's position on one, and which of the children comes first by lot.
#![tactic(auto)]

mod laws;
mod lists;
mod ranks;
mod tallies;
mod vacancies;

pub use laws::one_is_first;
pub use lists::{Waiting, waiting_list};
pub use tallies::Tally;
pub use vacancies::first_by_lot;
