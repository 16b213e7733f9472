// Whether the two parts fit, and a question split between them: a component of the second, and a vector of both.
ghost use Rattle.std.specs.Prelude.{◌≡◌, ◌≤◌, length};
ghost use Rattle.structure.specs.Refusals.{answer_by};
ghost use Rattle.pair.specs.Size.{measured};
ghost use Rattle.pair.specs.Paired.{second_place, level_by_parts};

use crate::measure::{Size, measure};
use crate::pair::Pair;
use structure::{Refusal, Structure};

impl<A: Structure, B: Structure> Pair<A, B> {
    /// The size where the two fit, or why they do not.
    pub(crate) fn size(&self) -> Result<Size, Refusal>
        ensures { answer_by (λ size. size) result ≡ measured (A.Structure.shape self.now.first) (B.Structure.shape self.now.second) }
    {
        measure(&self.first, &self.second)
    }

    /// The number in the second of a component that comes after the first's; none of any other, or where the two do not fit.
    pub(crate) fn second_place(&self, component: usize) -> Option<usize>
        ensures { result ≡ second_place (A.Structure.shape self.now.first) (B.Structure.shape self.now.second) component }
    {
        match self.size() {
            Ok(size) if component > size.front => Some(component - size.front),
            _ => None,
        }
    }

    /// The level of both parts where both have one: the front of the vector goes to the first, the rest to the second.
    pub(crate) fn split_level(&self, vector: &[u8], front: usize) -> Option<u8>
        requires { front ≤ length vector.now }
        ensures { result ≡ level_by_parts self.now.join (A.Structure.shape self.now.first) (B.Structure.shape self.now.second) front vector.now }
    {
        let first = self.first.level(&vector[0..front])?;
        let second = self.second.level(&vector[front..])?;
        Some(self.join.level_of(first, second))
    }
}
