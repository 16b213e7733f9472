// Conditions on a feed's contents, the slices apart as in `Feed::check`.
ghost use Rattle.std.specs.Prelude.{◌≡◌, ◌≤◌, length};
ghost use Rattle.feed.specs.Feed.{wrong_lengths, wrong_ends};

use crate::sum::weighted_sum;

/// Whether tags or weights are not one for each component.
pub(crate) fn wrong_lengths(tops: &[u8], tags: &[u32], weights: &[u16]) -> bool
    ensures { result ≡ wrong_lengths tops.now tags.now weights.now }
{
    tags.len() != tops.len() || weights.len() != tops.len()
}

/// Whether the first threshold is 0, or the last is above the weighted sum of all tops.
pub(crate) fn wrong_ends(tops: &[u8], weights: &[u16], thresholds: &[u32]) -> bool
    requires few { length weights.now ≤ 12 }
    requires some { 1 ≤ length thresholds.now }
    ensures { result ≡ wrong_ends tops.now weights.now thresholds.now }
{
    thresholds[0] == 0 || thresholds[thresholds.len() - 1] > weighted_sum(weights, tops)
}
