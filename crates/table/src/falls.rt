// Whether a table falls: an upper neighbour of some vector has a lower level.
ghost use Rattle.std.specs.Prelude.{◌≡◌, length};
ghost use Rattle.structure.specs.Shape.{vector_count};
ghost use Rattle.table.specs.Table.{falls};

/// Whether raising a rank of some vector lowers the level. It stops at the first vector that falls.
pub(crate) fn some_fall(tops: &[u8], levels: &[u8]) -> bool
    requires { length levels.now ≡ vector_count tops.now }
    ensures { result ≡ falls tops.now levels.now }
{
    // Nested loops left by a label are a fixed form of this project; the number is computed with, and not only looked up by.
    'vectors: {
        for number in 0..levels.len() {
            let mut stride = levels.len();
            let mut rest = number;
            for top in tops {
                stride /= *top as usize + 1;
                if rest / stride < *top as usize && levels[number + stride] < levels[number] {
                    break 'vectors true;
                }
                rest %= stride;
            }
        }
        false
    }
}
