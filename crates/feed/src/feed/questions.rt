// What a feed answers.
ghost use Rattle.feed.specs.Few.{held_in};
ghost use Rattle.feed.specs.Contents.{shape_of, tags_of};
ghost use Rattle.feed.specs.Passed.{feed_lawful, tags_long};

use crate::feed::Feed;
use crate::level::{is_within, thresholds_reached};
use crate::sum::weighted_sum;
use structure::Structure;

impl Structure for Feed {
    ghost shape = { shape_of };

    ghost tags = { tags_of };

    ghost lawful = { λ f.
        feed_lawful (held_in f.tops) (held_in f.tags) (held_in f.weights) (held_in f.thresholds) f.passes };

    ghost tagged = { λ f.
        tags_long (held_in f.tops) (held_in f.tags) (held_in f.weights) (held_in f.thresholds) f.passes };

    fn components(&self) -> usize {
        self.tops.as_slice().len()
    }

    fn best(&self) -> u8 {
        self.thresholds.as_slice().len() as u8
    }

    fn top(&self, component: usize) -> Option<u8> {
        self.tops.as_slice().get(component.checked_sub(1)?).copied()
    }

    fn tag(&self, component: usize) -> Option<u32> {
        self.tags.as_slice().get(component.checked_sub(1)?).copied()
    }

    fn level(&self, vector: &[u8]) -> Option<u8> {
        if !is_within(self.tops.as_slice(), vector) {
            return None;
        }
        let sum = weighted_sum(self.weights.as_slice(), vector);
        Some(thresholds_reached(self.thresholds.as_slice(), sum))
    }
}
