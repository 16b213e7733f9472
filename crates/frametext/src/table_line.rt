// Line 5: the table.
ghost use Rattle.std.specs.Prelude.{ℕ, List, vec_items};
ghost use Rattle.fields.specs.Results.{Reads, with_rest};
ghost use Rattle.frametext.specs.Frame.{table_line};

use fields::{ReadError, keyed};
use std::alloc::Global;
use table::check_levels;

/// The levels of the vectors, which suit the tops and the best level.
pub fn levels<'a>(
    heap: Global,
    text: &'a [u8],
    tops: &[u8],
    best: u8,
) -> Result<(Vec<u8>, &'a [u8]), ReadError>
    ensures { Reads (with_rest vec_items) result (table_line tops.now best text.now) }
{
    let (value, rest) = keyed(text, b"table=", 5)?;
    let levels = value.levels(heap)?;
    // Through `value.refused` in the closure the proof does not close.
    check_levels(tops, best, &levels).map_err(|refusal| ReadError::at(value.line, refusal))?;
    Ok((levels, rest))
}
