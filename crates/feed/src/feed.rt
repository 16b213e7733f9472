// The feed and its invariant.
ghost use Rattle.feed.specs.Few.{held_in};
ghost use Rattle.feed.specs.Feed.{Passes};

use crate::few::Few;

mod making;
mod questions;

/// A weight for each component, and thresholds for the weighted sum of the ranks. It passes the check of a feed: `Feed::new`
/// is its only maker.
#[derive(Clone, Copy)]
pub struct Feed {
    tops: Few<u8, 12>,
    tags: Few<u32, 12>,
    weights: Few<u16, 12>,
    thresholds: Few<u32, 7>,
    ghost passes: { Passes (held_in tops) (held_in tags) (held_in weights) (held_in thresholds) },
}
