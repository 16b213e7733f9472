// The check of a feed, and its making, which cannot refuse.
ghost use Rattle.std.specs.Prelude.{◌≡◌};
ghost use Rattle.structure.specs.Refusals.{verdict};
ghost use Rattle.feed.specs.Feed.{feed_shape, feed_answer, Passes};
ghost use Rattle.feed.specs.Contents.{shape_of, tags_of, made_shape, made_tags};

use crate::conditions::{wrong_ends, wrong_lengths};
use crate::feed::Feed;
use crate::few::Few;
use structure::{Refusal, any_fall, any_outside, any_over, is_outside, vector_count};

// The four slices stay apart: a struct of them would be named only to be passed on.
impl Feed {
    /// What is wrong with a feed of these contents, the refusal with the smallest number first.
    pub fn check(
        tops: &[u8],
        tags: &[u32],
        weights: &[u16],
        thresholds: &[u32],
    ) -> Result<(), Refusal>
        ensures { verdict result ≡ feed_answer tops.now tags.now weights.now thresholds.now }
    {
        if is_outside(tops.len() as u64, 12) {
            return Err(Refusal::Components);
        }
        if wrong_lengths(tops, tags, weights) {
            return Err(Refusal::Lengths);
        }
        if any_outside(tops, 7) {
            return Err(Refusal::Tops);
        }
        if is_outside(thresholds.len() as u64, 7) {
            return Err(Refusal::Best);
        }
        vector_count(tops).ok_or(Refusal::Vectors)?;
        if any_over(weights, 1000) {
            return Err(Refusal::Values);
        }
        if wrong_ends(tops, weights, thresholds) {
            return Err(Refusal::Ends);
        }
        if any_fall(thresholds) {
            return Err(Refusal::Falls);
        }
        Ok(())
    }

    /// The feed of these contents; where the check refuses them, the built-in structure of one component with the ranks 0 and 1.
    pub fn new(tops: &[u8], tags: &[u32], weights: &[u16], thresholds: &[u32]) -> Feed
        ensures shape { shape_of result ≡ made_shape tops.now tags.now weights.now thresholds.now }
        ensures tags { tags_of result ≡ made_tags tops.now tags.now weights.now thresholds.now }
    {
        match Feed::check(tops, tags, weights, thresholds) {
            Ok(()) => Feed::of(tops, tags, weights, thresholds),
            Err(_) => Feed::of(&[1], &[0], &[1], &[1]),
        }
    }

    // The feed of contents that pass the check.
    fn of(tops: &[u8], tags: &[u32], weights: &[u16], thresholds: &[u32]) -> Feed
        requires { Passes tops.now tags.now weights.now thresholds.now }
        ensures shape { shape_of result ≡ feed_shape tops.now weights.now thresholds.now }
        ensures tags { tags_of result ≡ tags.now }
    {
        Feed {
            tops: Few::new(0, tops),
            tags: Few::new(0, tags),
            weights: Few::new(0, weights),
            thresholds: Few::new(0, thresholds),
        }
    }
}
