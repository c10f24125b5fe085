// Fairness, said of registers: what rounds, fills and other commands may and may not do to children. The program calls none of it.
#![tactic(auto)]

mod anew;
mod code;
mod cutoffs;
mod honesty;
mod improvements;
mod lattice;
mod optimal;
mod raises;
mod rounds;
mod season;
mod shorter_lists;

pub use anew::{later_rounds_anew, one_round_anew, rounds_anew};
pub use code::{
    day_gives_no_priority, fill_takes_the_first, list_gives_no_priority, lists_know_no_order,
    looked_after_first, lots_part_equals, ranks_by_rule, standing_is_listed,
};
pub use cutoffs::{cutoffs_decide, round_is_explained, same_cutoffs_same_places, some_cutoff};
pub use honesty::{
    no_application_helps, no_applications_help, no_gain_by_declining, no_loss_by_not_applying,
};
pub use improvements::{no_loss_by_amend, no_loss_by_rank};
pub use lattice::{best_is_last_choice, join_is_stable, meet_is_stable};
pub use optimal::{none_fairer, not_all_better};
pub use raises::{no_loss_by_quotas, no_loss_by_raise};
pub use rounds::{round_is_fair, same_lots_same_places, same_order_same_places};
pub use season::{
    envy_has_cause, every_envy_has_cause, no_new_envy, place_ends_fairly, plan_is_kept,
};
pub use shorter_lists::{no_loss_by_shorter_application, no_loss_by_shorter_list};
