// The number of a vector.
ghost use Rattle.std.specs.Prelude.{◌≡◌, ◌≤◌};
ghost use Rattle.structure.specs.Shape.{vector_count};
ghost use Rattle.table.specs.Table.{number_if_within};

/// The number of a vector; none exactly where its length is not that of the tops or a rank is over its top.
pub(crate) fn number_of(tops: &[u8], vector: &[u8]) -> Option<usize>
    requires { vector_count tops.now ≤ 65536 }
    ensures { result ≡ number_if_within tops.now vector.now }
{
    if vector.len() != tops.len() {
        return None;
    }
    let mut number = 0;
    for (rank, top) in vector.iter().zip(tops) {
        if rank > top {
            return None;
        }
        number = number * (*top as usize + 1) + *rank as usize;
    }
    Some(number)
}
