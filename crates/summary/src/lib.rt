//! The report of a case text: how the search ended and the figures of each level, or the text's fault.
#![tactic(auto)]

mod lines;
mod studied;
mod whole;

pub use whole::report;
