// Opening a study.
ghost use Rattle.std.specs.Prelude.{◌≡◌, ℕ, ◌<◌, ◌≤◌, map, length, IfOk, vec_len, slice_index};
ghost use Rattle.promise.specs.Figures.{no_shares};
ghost use Rattle.promise.specs.Calls.{Opens};
ghost use Rattle.structure.specs.Shape.{vector_count};
ghost use Rattle.tally.specs.Model.{rows_of};
ghost use Rattle.study.specs.Model.{fresh};
ghost use Rattle.study.specs.Bounds.{Bounded};

use crate::ledger::{Ledger, MOST_RECORDS};
use crate::study::Study;
use std::alloc::{AllocError, Global};
use structure::{Structure, vector_count};
use tally::Row;

impl<S: Structure + Drop> Study<S> {
    /// Opens a study: all shares 0, no records, no vector examined. The one call that asks for memory.
    pub fn open(heap: Global, structure: S) -> Result<Study<S>, AllocError>
        ensures opens { IfOk result (λ t. Opens (S.Structure.shape structure) t.ledger) }
        ensures kept { IfOk result (λ t. t.structure ≡ structure) }
        ensures bounded { IfOk result (λ t. Bounded t.ledger) }
    {
        let tops = tops_of(heap, &structure)?;
        let ledger = Ledger::open(heap, tops, structure.best())?;
        Ok(Study { structure, ledger })
    }
}

impl Ledger {
    // A ledger of components with these tops: all shares 0, no records, no vector examined.
    fn open(heap: Global, tops: Vec<u8>, best: u8) -> Result<Ledger, AllocError>
        requires few { vec_len tops ≤ 12 }
        requires low { (k : ℕ) → k < vec_len tops → slice_index tops.items k ≤ 7 }
        requires countable { vector_count tops.items ≤ 65536 }
        ensures opens { IfOk result (λ t. t ≡ fresh tops.items best) }
        ensures bounded { IfOk result (λ t. Bounded t) }
    {
        let vectors = vector_count(&tops).unwrap();
        let rows = zero_rows(heap, &tops)?;
        let paths = Vec::with_capacity(heap, MOST_RECORDS)?;
        let cuts = Vec::with_capacity(heap, MOST_RECORDS)?;
        let (examined, finished) = (0, false);
        Ok(Ledger {
            tops,
            best,
            vectors,
            rows,
            examined,
            finished,
            paths,
            cuts,
        })
    }
}

// The tops of the structure's components.
fn tops_of<S: Structure>(heap: Global, structure: &S) -> Result<Vec<u8>, AllocError>
    ensures { IfOk result (λ v. v.items ≡ (S.Structure.shape structure.now).tops) }
{
    let n = structure.components();
    let mut tops = Vec::with_capacity(heap, n)?;
    // A loop: the proof does not know which numbers a collected `1..=n` yields.
    for component in 1..=n {
        tops.push(structure.top(component).unwrap_or(0))?;
    }
    Ok(tops)
}

// A row of zeros for each top.
fn zero_rows(heap: Global, tops: &[u8]) -> Result<Vec<Row>, AllocError>
    requires { (k : ℕ) → k < length tops.now → slice_index tops.now k ≤ 7 }
    ensures rows { IfOk result (λ v. map rows_of v.items ≡ map no_shares tops.now) }
    ensures len { IfOk result (λ v. vec_len v ≡ length tops.now) }
{
    tops.iter().map(|top| Row::zero(*top)).collect(heap)
}
