// The register of a season: its rows, the queries over them, and the change that makes the next register.
#![tactic(auto)]

mod changed;
mod checks;
mod child_checks;
mod difference;
pub mod draws_so_far;
mod groups;
mod laws;
mod list_fault;
mod lists;
mod register_rows;
mod registers;
mod rounds_held;
mod row_groups;
mod rows_fault;
mod rows_in;
mod standings;
mod tables;
mod waits;
mod wanted;

pub use child_checks::is_preference_list;
pub use difference::Difference;
pub use draws_so_far::DrawsSoFar;
pub use laws::same_is_equal;
pub use list_fault::ListFault;
pub use register_rows::Rows;
pub use registers::Register;
pub use rows_fault::RowsFault;
pub use standings::Standing;
pub use tables::{Tables, is_plan};
