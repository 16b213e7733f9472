// Whether two structures can be joined, and how large the pair is then.
ghost use Rattle.std.specs.Prelude.{◌≡◌, ◌++◌};
ghost use Rattle.structure.specs.Shape.{vector_count};
ghost use Rattle.structure.specs.Refusals.{answer_by};
ghost use Rattle.pair.specs.Size.{measured};

use structure::{MOST_VECTORS, Refusal, Structure, is_outside};

/// How large a pair is whose parts fit.
#[derive(Clone, Copy)]
pub(crate) struct Size {
    /// The components of the first, which stand in front.
    pub(crate) front: usize,
    /// The components of both.
    pub(crate) components: usize,
    /// The vectors of both.
    pub(crate) vectors: usize,
}

/// The size of a pair of these two, or the refusal with the smallest number.
pub(crate) fn measure<A: Structure, B: Structure>(first: &A, second: &B) -> Result<Size, Refusal>
    ensures { answer_by (λ size. size) result ≡ measured (A.Structure.shape first.now) (B.Structure.shape second.now) }
{
    let front = first.components();
    let components = front + second.components();
    if is_outside(components as u64, 12) {
        return Err(Refusal::Components);
    }
    if first.best() != second.best() {
        return Err(Refusal::Best);
    }
    let vectors = both_vectors(first, second);
    if vectors > MOST_VECTORS {
        return Err(Refusal::Vectors);
    }
    Ok(Size {
        front,
        components,
        vectors,
    })
}

/// How many vectors there are of the components of both.
fn both_vectors<A: Structure, B: Structure>(first: &A, second: &B) -> usize
    ensures { result ≡ vector_count ((A.Structure.shape first.now).tops ++ (B.Structure.shape second.now).tops) }
{
    first.vectors() * second.vectors()
}
