// What every structure answers, and what it means.
ghost use Rattle.std.specs.Prelude.{◌≡◌, ℕ, List, length};
ghost use Rattle.structure.specs.Shape.{Shape, Lawful, vector_count};
ghost use Rattle.structure.specs.Questions.{at_place, level_if_within};

/// A structure of components numbered from 1, each with the ranks 0 to its top and a tag that names it, and a level for
/// each vector of ranks. Every question answers from one fixed value and changes nothing.
pub trait Structure {
    ghost shape: { Self → Shape };

    ghost tags: { Self → List ℕ };

    /// The number of components.
    fn components(&self) -> usize
        ensures { result ≡ length (shape self.now).tops };

    /// The best level: levels run from 0 to it.
    fn best(&self) -> u8
        ensures { result ≡ (shape self.now).best };

    /// The top rank of a component; none exactly where there is no such component.
    fn top(&self, component: usize) -> Option<u8>
        ensures { result ≡ at_place (shape self.now).tops component };

    /// The tag of a component; none exactly where there is no such component.
    fn tag(&self, component: usize) -> Option<u32>
        ensures { result ≡ at_place (tags self.now) component };

    /// The level of a vector; none exactly where its length is not the number of components or a rank is over its top.
    fn level(&self, vector: &[u8]) -> Option<u8>
        ensures { result ≡ level_if_within (shape self.now) vector.now };

    /// The number of vectors.
    fn vectors(&self) -> usize
        ensures { result ≡ vector_count (shape self.now).tops }
    {
        // A loop: of a chain's product the proof that each number on the way fits did not close.
        let mut count: usize = 1;
        for component in 1..=self.components() {
            count *= usize::from(self.top(component).unwrap_or(0)) + 1;
        }
        count
    }

    ghost lawful: { (s : Self) → Lawful (shape s) };

    ghost tagged: { (s : Self) → length (tags s) ≡ length (shape s).tops };
}
