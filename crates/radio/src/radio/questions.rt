// What a radio answers. The contracts stand in the interface, over two ghost members; here stand the members and the code.
// A question that has a body in the interface, as `vectors`, asks nothing of the maker.
ghost use Rattle.radio.specs.Radio.{radio_shape, radio_tags};
ghost use Rattle.radio.specs.Lawful.{radio_lawful};

use crate::radio::Radio;
use structure::Structure;

impl Structure for Radio {
    // The fixed value that the answers have to agree with: the tops, the best level, and the level of each vector.
    ghost shape = { λ _. radio_shape };

    // The tags that the answers have to agree with, one for each component.
    ghost tags = { radio_tags };

    // The laws of the interface, each by its proof: the rules of a structure, and one tag for each component.
    ghost lawful = { λ _. radio_lawful };

    ghost tagged = { λ r. r.tagged };

    fn components(&self) -> usize {
        self.tags.len()
    }

    fn best(&self) -> u8 {
        2
    }

    fn top(&self, component: usize) -> Option<u8> {
        match component {
            1..=5 => Some(1),
            _ => None,
        }
    }

    fn tag(&self, component: usize) -> Option<u32> {
        self.tags.get(component.checked_sub(1)?).copied()
    }

    // The pattern takes exactly the vectors that have a level: one rank, 0 or 1, for each component.
    fn level(&self, vector: &[u8]) -> Option<u8> {
        let [t1 @ 0..=1, t2 @ 0..=1, c1 @ 0..=1, c2 @ 0..=1, c3 @ 0..=1] = *vector else {
            return None;
        };
        if t1 == 1 || t2 == 1 {
            Some(2)
        } else if c1 == 1 && c2 == 1 && c3 == 1 {
            Some(1)
        } else {
            Some(0)
        }
    }
}
