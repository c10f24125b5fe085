// Laws of stable allocations, and what tests hold one to: its first blocking pair, and whom a school holds. The program calls none of them.
#![tactic(auto)]

mod blocking;
mod kept;
mod laws;
mod ranks;

pub use blocking::first_block;
pub use kept::Kept;
pub use laws::{
    kinds_of_generosity, no_gain, no_group_gains, no_list_helps, no_loss, no_loss_by_cutting,
    no_loss_by_leaving, no_loss_by_places, one_best, same_placed, same_schools_fill,
};
