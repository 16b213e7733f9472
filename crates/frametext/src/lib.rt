//! The first five lines of a case text: components, best level, tops, tags and table.
#![tactic(auto)]

mod counts;
mod lists;
mod table_line;
mod within;

pub use counts::{best, components};
pub use lists::{tags, tops};
pub use table_line::levels;
