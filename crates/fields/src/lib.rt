//! The lines of a text and their values: each read with what it says, or with a fault and its line.
#![tactic(auto)]

mod cut;
mod fault;
mod line;
mod numbers;
mod values;

pub use fault::{Fault, ReadError};
pub use values::{Value, keyed};
