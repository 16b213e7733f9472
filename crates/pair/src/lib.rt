//! Pairs: two structures joined in series or in parallel.
#![tactic(auto)]

mod join;
mod measure;
mod pair;

pub use join::Join;
pub use pair::Pair;
