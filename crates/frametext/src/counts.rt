// Lines 1 and 2: the number of components and the best level.
ghost use Rattle.std.specs.Prelude.{◌≡◌, ℕ, ◌≤◌, List, [], ◌∷◌, IfOk};
ghost use Rattle.structure.specs.Conditions.{outside};
ghost use Rattle.structure.specs.Refusals.{number_of};
ghost use Rattle.fields.specs.Numbers.{number_in};
ghost use Rattle.fields.specs.Readings.{line_reading};
ghost use Rattle.fields.specs.Results.{Reads, with_rest};
ghost use Rattle.frametext.specs.Frame.{components_line, levels_line};

use crate::within::within;
use fields::{ReadError, keyed};
use structure::Refusal;

// A number from 1 to `most`, on the line that begins with `key`.
fn count<'a>(
    text: &'a [u8],
    key: &[u8],
    line: usize,
    most: u8,
    refusal: Refusal,
) -> Result<(u8, &'a [u8]), ReadError>
    ensures few { IfOk result (λ p. p.0 ≤ most) }
    ensures reads { Reads (with_rest (λ n. n)) result (line_reading line key.now number_in (λ n. (outside n most, number_of refusal) ∷ []) text.now) }
{
    let (value, rest) = keyed(text, key, line)?;
    let number = value.number()?;
    let count = within(number, most).ok_or(value.refused(refusal))?;
    Ok((count, rest))
}

/// The number of components.
pub fn components(text: &[u8]) -> Result<(u8, &[u8]), ReadError>
    ensures reads { Reads (with_rest (λ n. n)) result (components_line text.now) }
    ensures few { IfOk result (λ p. p.0 ≤ 12) }
{
    count(text, b"components=", 1, 12, Refusal::Components)
}

/// The best level.
pub fn best(text: &[u8]) -> Result<(u8, &[u8]), ReadError>
    ensures { Reads (with_rest (λ n. n)) result (levels_line text.now) }
{
    count(text, b"levels=", 2, 7, Refusal::Best)
}
