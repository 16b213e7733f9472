// When the two rows of a component are refused.
ghost use Rattle.std.specs.Prelude.{◌≡◌};
ghost use Rattle.share.specs.Shares.{D};
ghost use Rattle.structure.specs.Conditions.{any_sum_over};
ghost use Rattle.structure.specs.Refusals.{verdict, judged};
ghost use Rattle.promise.specs.Calls.{row_tests};

use share::WHOLE;
use structure::{Refusal, any_fall, any_over, any_rise};

/// Whether these can be the rows of a component with this top, or the first reason why not.
// The two rows stay apart, as `enter` takes them: a struct would be made at each call only to be taken apart.
pub fn check_rows(top: u8, up: &[u64], down: &[u64]) -> Result<(), Refusal>
    ensures { verdict result ≡ judged (row_tests top (record { up = up.entry.now; down = down.now })) }
{
    let ranks = usize::from(top);
    if up.len() != ranks || down.len() != ranks {
        return Err(Refusal::RowLength);
    }
    if any_over(up, WHOLE) || any_over(down, WHOLE) {
        return Err(Refusal::OverWhole);
    }
    if any_rise(up) || any_fall(down) {
        return Err(Refusal::RowOrder);
    }
    if any_excess(up, down) {
        return Err(Refusal::Excess);
    }
    Ok(())
}

// Some up share and the down share of its rank are over the whole together.
fn any_excess(up: &[u64], down: &[u64]) -> bool
    ensures { result ≡ any_sum_over D up.now down.now }
{
    up.iter()
        .zip(down)
        .any(|(up, down)| up.saturating_add(*down) > WHOLE)
}
