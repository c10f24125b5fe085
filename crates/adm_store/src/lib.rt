//! A register in a SQLite database: how it is created, opened and changed.
#![tactic(auto)]

mod applications;
mod children;
mod creation;
mod difference;
mod draws;
mod fault;
mod found;
mod imported;
mod left_list;
mod lent;
mod lots;
mod migration;
mod offers;
mod places;
mod present;
mod rows;
mod schools;
mod season;
mod statement;
mod store;
mod to_rows;
mod written;

pub use difference::changes;
pub use fault::{CreateFault, Failed};
pub use rows::{ApplicationRow, Changes, ChildRow, ImportedRow, SchoolRow};
pub use store::{Store, create, open};
pub use to_rows::{HomeRow, WishRow};
