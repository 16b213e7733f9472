// The levels of the vectors one rank lower and one rank higher.
ghost use Rattle.std.specs.Prelude.{◌≡◌, ◌<◌, ◌≤◌, length, take, slice_set};
ghost use Rattle.structure.specs.Questions.{level_if_within};
ghost use Rattle.study.specs.Examining.{FindsHighest, FindsLowest};

use structure::Structure;

/// A vector of at most 12 components, with the twelve places that it stands in.
// The places are copied at each neighbour: twelve bytes at once, where a copy of as many as there are ranks would be a call.
#[derive(Clone, Copy)]
pub(crate) struct Vector<'a> {
    pub(crate) places: &'a [u8; 12],
    pub(crate) ranks: &'a [u8],
    ghost short: { length ranks.now ≤ 12 },
    ghost first: { ranks.now ≡ take (length ranks.now) places.now },
}

impl Vector<'_> {
    // The level with this rank at place i; none where the structure does not answer.
    fn level_with<S: Structure>(&self, structure: &S, i: usize, rank: u8) -> Option<u8>
        requires { i < length self.now.ranks.now }
        ensures { result ≡ level_if_within (S.Structure.shape structure.now) (slice_set self.now.ranks.now i rank) }
    {
        let mut near = *self.places;
        near[i] = rank;
        structure.level(&near[..self.ranks.len()])
    }

    // The highest level one rank lower, 0 where there is none lower; none where the structure does not answer.
    pub(crate) fn highest_below<S: Structure>(&self, structure: &S) -> Option<u8>
        ensures { FindsHighest (S.Structure.shape structure.now) self.now.ranks.now result }
    {
        let mut highest = 0;
        for (i, rank) in self.ranks.iter().enumerate() {
            if *rank > 0 {
                let level = self.level_with(structure, i, *rank - 1)?;
                highest = level.max(highest);
            }
        }
        Some(highest)
    }

    // The lowest level one rank higher, the best level where there is none higher; none where the structure does not
    // answer.
    pub(crate) fn lowest_above<S: Structure>(
        &self,
        structure: &S,
        tops: &[u8],
        best: u8,
    ) -> Option<u8>
        ensures { FindsLowest (S.Structure.shape structure.now) tops.now best self.now.ranks.now result }
    {
        let mut lowest = best;
        for (i, (rank, top)) in self.ranks.iter().zip(tops).enumerate() {
            if *rank < *top {
                let level = self.level_with(structure, i, *rank + 1)?;
                lowest = level.min(lowest);
            }
        }
        Some(lowest)
    }
}
