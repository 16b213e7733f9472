//! Tables: one level for each vector, lent as bytes in number order.
#![tactic(auto)]

mod check;
mod conditions;
mod falls;
mod table;
mod vector_number;

pub use check::check_levels;
pub use conditions::any_outside;
pub use table::Table;
