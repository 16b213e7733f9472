// The check of a pair, and its making, which cannot refuse.
ghost use Rattle.std.specs.Prelude.{◌≡◌};
ghost use Rattle.structure.specs.Refusals.{verdict};
ghost use Rattle.pair.specs.Fit.{pair_answer};
ghost use Rattle.pair.specs.Paired.{paired, paired_tags};
ghost use Rattle.pair.specs.Contents.{shape_of, tags_of};

use crate::join::Join;
use crate::measure::measure;
use crate::pair::Pair;
use structure::{Refusal, Structure};

impl<A: Structure, B: Structure> Pair<A, B> {
    /// What is wrong with a pair of these two, the refusal with the smallest number first.
    pub fn check(first: &A, second: &B) -> Result<(), Refusal>
        ensures { verdict result ≡ pair_answer (A.Structure.shape first.now) (B.Structure.shape second.now) }
    {
        measure(first, second)?;
        Ok(())
    }

    /// The pair of these two; where the check refuses them, it answers as the first alone.
    pub fn new(join: Join, first: A, second: B) -> Pair<A, B>
        ensures shape { shape_of A.Structure.shape B.Structure.shape result ≡ paired join (A.Structure.shape first) (B.Structure.shape second) }
        ensures tags { tags_of A.Structure.shape B.Structure.shape A.Structure.tags B.Structure.tags result ≡ paired_tags (A.Structure.shape first) (B.Structure.shape second) (A.Structure.tags first) (B.Structure.tags second) }
    {
        Pair {
            join,
            first,
            second,
        }
    }
}
