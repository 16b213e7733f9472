//! A study of a structure: shares entered and carried, minimal vectors examined and listed, and the two figures of each level.
#![tactic(auto)]

mod carry;
mod enter;
mod examine;
mod figures;
mod ledger;
mod neighbours;
mod open;
mod show;
mod side;
mod step;
mod study;
mod vectors;
mod word;

pub use side::Side;
pub use study::Study;
pub use tally::check_rows;
pub use word::Word;
