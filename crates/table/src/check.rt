// The check of a table's levels, a test for each refusal.
ghost use Rattle.std.specs.Prelude.{◌≡◌};
ghost use Rattle.structure.specs.Refusals.{verdict};
ghost use Rattle.table.specs.Table.{level_answer};

use crate::falls::some_fall;
use structure::{Refusal, any_over, vector_count};

/// What is wrong with the levels of a table over these tops, the refusal with the smallest number first.
pub fn check_levels(tops: &[u8], best: u8, levels: &[u8]) -> Result<(), Refusal>
    ensures { verdict result ≡ level_answer tops.now best levels.now }
{
    let count = vector_count(tops).ok_or(Refusal::Vectors)?;
    if levels.len() != count {
        return Err(Refusal::TableLength);
    }
    if any_over(levels, u64::from(best)) {
        return Err(Refusal::Values);
    }
    if levels.first() != Some(&0) || levels.last() != Some(&best) {
        return Err(Refusal::Ends);
    }
    if some_fall(tops, levels) {
        return Err(Refusal::Falls);
    }
    Ok(())
}
