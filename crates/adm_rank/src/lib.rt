// How a child ranks at a school: its distance, its class, and the key of both with a lot.
#![tactic(auto)]

mod classes;
mod distances;
mod keys;
mod laws;

pub use classes::class;
pub use distances::{distance, is_nearer};
pub use keys::{RankKey, key};
pub use laws::{keys_compare_by_rank, order_is_total};
