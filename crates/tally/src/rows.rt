// Making the rows of a component, and what they say.
ghost use Rattle.std.specs.Prelude.{◌≡◌, ◌-◌, ◌≤◌, ◌==◌, if◌then◌else◌, min, false, length, take, slice_index, slice_index_or, IfOk};
ghost use Rattle.share.specs.Shares.{D};
ghost use Rattle.structure.specs.Conditions.{any_over};
ghost use Rattle.structure.specs.Refusals.{answer_by, judged};
ghost use Rattle.promise.specs.Figures.{no_shares};
ghost use Rattle.promise.specs.Calls.{disordered};
ghost use Rattle.tally.specs.Model.{rows_of, making_tests, reading_of};

use crate::checks::check_rows;
use crate::reading::Reading;
use crate::row::Row;
use share::Share;
use std::array;
use structure::{Refusal, any_fall, any_rise};

impl Row {
    /// The rows of a component with this top, or the first reason why there are none.
    pub fn new(top: u8, up: &[u64], down: &[u64]) -> Result<Row, Refusal>
        ensures verdict { answer_by (λ _. tt) result ≡ judged (making_tests top (record { up = up.entry.now; down = down.now })) }
        ensures rows { IfOk result (λ w. rows_of w ≡ record { up = up.entry.now; down = down.now }) }
    {
        if top > 7 {
            return Err(Refusal::RowLength);
        }
        check_rows(top, up, down)?;
        Ok(Row::holding(up, down))
    }

    // The rows of these shares.
    fn holding(up: &[u64], down: &[u64]) -> Row
        requires short { length up.now ≤ 7 }
        requires paired { length down.now ≡ length up.now }
        requires shares { (any_over D up.now ≡ false) × (any_over D down.now ≡ false) }
        ensures { rows_of result ≡ record { up = up.entry.now; down = down.now } }
    {
        let top = up.len();
        let up = shares(up);
        let down = shares(down);
        Row { top, up, down }
    }

    /// These shares, for as many ranks as the top says; for 7 where it is over 7.
    pub fn of(top: u8, up: [Share; 7], down: [Share; 7]) -> Row
        ensures { rows_of result ≡ record { up = take (min top 7) up; down = take (min top 7) down } }
    {
        let top = usize::from(top.min(7));
        Row { top, up, down }
    }

    /// All shares zero.
    pub fn zero(top: u8) -> Row
        ensures { rows_of result ≡ no_shares (min top 7) }
    {
        let none = [Share::none(); 7];
        Row::of(top, none, none)
    }

    /// Whether the up row rises, or the down row falls.
    pub fn is_disordered(&self) -> bool
        ensures { result ≡ disordered (rows_of self.now) }
    {
        any_rise(&self.up[..self.top]) || any_fall(&self.down[..self.top])
    }

    /// The share that a product takes where a vector gives the component this rank.
    pub fn read(&self, reading: Reading, rank: u8) -> Share
        ensures { result ≡ reading_of reading (rows_of self.now) rank }
    {
        let rank = usize::from(rank);
        let (none, whole) = (Share::none(), Share::whole());
        match reading {
            Reading::UpAt => share_at(&self.up[..self.top], rank, whole, none),
            Reading::UpOver => share_at(&self.up[..self.top], rank + 1, whole, none),
            Reading::DownAt => share_at(&self.down[..self.top], rank, none, whole),
            Reading::DownOver => share_at(&self.down[..self.top], rank + 1, none, whole),
        }
    }
}

// A row's share of a rank; `at_zero` at rank 0, and `past` over the top.
fn share_at(row: &[Share], rank: usize, at_zero: Share, past: Share) -> Share
    ensures { result ≡ (if rank == 0 then at_zero else slice_index_or row.now (rank - 1) past) }
{
    match rank.checked_sub(1) {
        Some(place) => row.get(place).copied().unwrap_or(past),
        None => at_zero,
    }
}

// The shares of these billionths, and no share after them.
fn shares(row: &[u64]) -> [Share; 7]
    requires short { length row.now ≤ 7 }
    requires shares { any_over D row.now ≡ false }
    ensures { take (length row.now) result ≡ row.now }
{
    array::from_fn(|place| share_in(row, place))
}

// The share of the billionths at a place; no share past the end.
fn share_in(row: &[u64], place: usize) -> Share
    requires { any_over D row.now ≡ false }
    ensures { result ≡ slice_index row.now place }
{
    row.get(place)
        .and_then(|billionths| Share::new(*billionths))
        .unwrap_or(Share::none())
}
