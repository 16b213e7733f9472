// Lines 3 and 4: tops and tags, one for each component.
ghost use Rattle.std.specs.Prelude.{◌≡◌, ℕ, List, IfOk, if◌then◌else◌, Some, None, vec_items, vec_len};
ghost use Rattle.std.specs.Option.{option_map};
ghost use Rattle.structure.specs.Conditions.{any_outside};
ghost use Rattle.fields.specs.Results.{Reads, with_rest};
ghost use Rattle.frametext.specs.Frame.{counted_list, tops_line, tags_line};

use crate::within::within;
use fields::{ReadError, Value, keyed};
use std::alloc::{AllocError, Global};
use structure::{Refusal, vector_count};

// The numbers of the value, one for each component.
fn one_each(heap: Global, value: &Value, components: u8) -> Result<Vec<u32>, ReadError>
    ensures { Reads vec_items result (counted_list value.now.line components value.now.text.now) }
{
    let numbers = value.list(heap)?;
    if numbers.len() != components as usize {
        return Err(value.refused(Refusal::Lengths));
    }
    Ok(numbers)
}

// The same numbers as tops; none where one is outside 1 to 7. A loop, since of a `collect` into an option the proof
// does not close.
fn narrow(heap: Global, numbers: &[u32]) -> Result<Option<Vec<u8>>, AllocError>
    ensures { IfOk result (λ o. option_map vec_items o ≡ (if any_outside 7 numbers.now then None else Some numbers.now)) }
{
    let mut tops = Vec::new(heap);
    for n in numbers {
        let Some(top) = within(*n, 7) else {
            return Ok(None);
        };
        tops.push(top)?;
    }
    Ok(Some(tops))
}

/// The tops, one for each component.
pub fn tops(heap: Global, text: &[u8], components: u8) -> Result<(Vec<u8>, &[u8]), ReadError>
    ensures reads { Reads (with_rest vec_items) result (tops_line components text.now) }
    ensures counted { IfOk result (λ p. vec_len p.0 ≡ components) }
{
    let (value, rest) = keyed(text, b"tops=", 3)?;
    let numbers = one_each(heap, &value, components)?;
    let tops = narrow(heap, &numbers)?.ok_or(value.refused(Refusal::Tops))?;
    vector_count(&tops).ok_or(value.refused(Refusal::Vectors))?;
    Ok((tops, rest))
}

/// The tags, one for each component.
pub fn tags(heap: Global, text: &[u8], components: u8) -> Result<(Vec<u32>, &[u8]), ReadError>
    ensures { Reads (with_rest vec_items) result (tags_line components text.now) }
{
    let (value, rest) = keyed(text, b"tags=", 4)?;
    let tags = one_each(heap, &value, components)?;
    Ok((tags, rest))
}
