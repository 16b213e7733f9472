// The order of vectors: how many there are.
ghost use Rattle.std.specs.Prelude.{◌≡◌};
ghost use Rattle.structure.specs.Questions.{count_if_few};

/// The most vectors that a structure may have.
pub const MOST_VECTORS: usize = 65536;

/// How many vectors there are; none where there are over 65,536.
pub fn vector_count(tops: &[u8]) -> Option<usize>
    ensures { result ≡ count_if_few tops.now }
{
    let mut count: usize = 1;
    for &top in tops {
        count *= usize::from(top) + 1;
        if count > MOST_VECTORS {
            return None;
        }
    }
    Some(count)
}
