// The whole text.
ghost use Rattle.std.specs.Prelude.{ℕ, List};
ghost use Rattle.fields.specs.Results.{Reads};
ghost use Rattle.casetext.specs.Case.{reading};
ghost use Rattle.casetext.specs.Contents.{content_of};

use crate::case::Case;
use crate::rows::rows;
use fields::ReadError;
use std::alloc::Global;
use structure::Refusal;

const MOST_BYTES: usize = 65_536;

/// The case that a text holds, or its first fault. A text over 65,536 bytes is not looked at.
pub fn read(heap: Global, text: &[u8]) -> Result<Case, ReadError>
    ensures { Reads content_of result (reading text.now) }
{
    if text.len() > MOST_BYTES {
        return Err(ReadError::at(0, Refusal::TextLength));
    }
    let (components, text) = frametext::components(text)?;
    let (best, text) = frametext::best(text)?;
    let (tops, text) = frametext::tops(heap, text, components)?;
    let (tags, text) = frametext::tags(heap, text, components)?;
    let (levels, text) = frametext::levels(heap, text, &tops, best)?;
    let (rows, text) = rows(heap, text, &tops)?;
    if !text.is_empty() {
        return Err(ReadError::at(6 + 2 * components as usize, Refusal::Trailing));
    }
    Ok(Case {
        tops,
        best,
        tags,
        levels,
        rows,
    })
}
