//! The case reader: bytes to a case, or a fault with its line.
#![tactic(auto)]

mod case;
mod rows;
mod whole;

pub use case::{Case, Shares};
pub use fields::{Fault, ReadError};
pub use whole::read;
