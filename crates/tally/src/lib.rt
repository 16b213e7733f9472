//! The rows of shares of components, the records of vectors, and what the records of a level give with the rows.
#![tactic(auto)]

mod checks;
mod products;
mod reading;
mod record;
mod row;
mod rows;
mod tally;

pub use checks::check_rows;
pub use reading::Reading;
pub use record::Record;
pub use row::Row;
pub use tally::{Tally, tally_level};
