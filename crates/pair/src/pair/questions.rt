// What a pair answers: each question asks the parts.
ghost use Rattle.pair.specs.Contents.{shape_of, tags_of};
ghost use Rattle.pair.specs.Lawful.{paired_lawful, paired_tagged};

use crate::measure::Size;
use crate::pair::Pair;
use structure::Structure;

impl<A: Structure, B: Structure> Structure for Pair<A, B> {
    ghost shape = { shape_of A.Structure.shape B.Structure.shape };

    ghost tags = { tags_of A.Structure.shape B.Structure.shape A.Structure.tags B.Structure.tags };

    ghost lawful = { λ p.
        paired_lawful p.join (A.Structure.shape p.first) (B.Structure.shape p.second)
        (A.Structure.lawful p.first) (B.Structure.lawful p.second) };

    ghost tagged = { λ p.
        paired_tagged p.join (A.Structure.shape p.first) (B.Structure.shape p.second)
        (A.Structure.tags p.first) (B.Structure.tags p.second)
        (A.Structure.tagged p.first) (B.Structure.tagged p.second) };

    fn components(&self) -> usize {
        self.size()
            .map_or_else(|_| self.first.components(), |size| size.components)
    }

    fn best(&self) -> u8 {
        self.first.best()
    }

    fn top(&self, component: usize) -> Option<u8> {
        self.first
            .top(component)
            .or_else(|| self.second.top(self.second_place(component)?))
    }

    fn tag(&self, component: usize) -> Option<u32> {
        self.first
            .tag(component)
            .or_else(|| self.second.tag(self.second_place(component)?))
    }

    fn level(&self, vector: &[u8]) -> Option<u8> {
        let Ok(Size { front, .. }) = self.size() else {
            return self.first.level(vector);
        };
        if vector.len() < front {
            return None;
        }
        self.split_level(vector, front)
    }

    fn vectors(&self) -> usize {
        self.size()
            .map_or_else(|_| self.first.vectors(), |size| size.vectors)
    }
}
