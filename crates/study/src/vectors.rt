// The vector of a number.
ghost use Rattle.std.specs.Prelude.{◌≡◌, ◌<◌, ◌≤◌, length, take};
ghost use Rattle.structure.specs.Shape.{vector_count};
ghost use Rattle.structure.specs.Order.{vector_of as vector-numbered};

// The vector of this number, followed by zeros.
pub(crate) fn vector_of(tops: &[u8], number: usize) -> [u8; 12]
    requires { length tops.now ≤ 12 }
    ensures { number < vector_count tops.now → take (length tops.now) result ≡ vector-numbered tops.now number }
{
    // Twelve places, as in a record: no call after the open asks for memory.
    let mut vector = [0u8; 12];
    let mut left = number;
    // By the place: what is written through a zipped mutable iterator is not known to the proof after the loop.
    for (i, top) in tops.iter().enumerate().rev() {
        let ranks = *top as usize + 1;
        vector[i] = (left % ranks) as u8;
        left /= ranks;
    }
    vector
}
