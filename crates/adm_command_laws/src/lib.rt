// Laws of commands: of each step, of repeats, rounds, imports and other lists. The program calls none of them.
#![tactic(auto)]

mod decisions;
mod laws;

pub use decisions::decide;
pub use laws::{
    draws_kept, import_once, no_better_list, one_step, places_have_cause, repeat_safe,
    round_is_posed, round_is_recorded, season_stays, some_step, standard_is_small, step_keeps,
};
