//! Structures: what each answers, the order of its vectors, and the minimal vectors that a study lists.
#![tactic(auto)]

mod conditions;
mod interface;
mod order;
mod refusal;
mod theory;

pub use conditions::{any_fall, any_outside, any_over, any_rise, is_outside};
pub use interface::Structure;
pub use order::{MOST_VECTORS, vector_count};
pub use refusal::Refusal;
pub use theory::listing_stands;
