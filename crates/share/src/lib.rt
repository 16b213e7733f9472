//! Shares in whole billionths, and how near rounding keeps them to the exact products.
#![tactic(auto)]

mod share;
mod theory;
mod width;

pub use share::{Share, WHOLE};
pub use theory::rounding_stands;
