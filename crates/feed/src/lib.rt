//! Feeds: a weight for each component, and a level for each threshold that the weighted sum of the ranks reaches.
#![tactic(auto)]

mod conditions;
mod feed;
mod few;
mod level;
mod sum;

pub use feed::Feed;
