// Products of shares over the components of one vector.
ghost use Rattle.std.specs.Prelude.{◌≡◌};
ghost use Rattle.share.specs.Shares.{rounded, share_of_all, share_of_any};
ghost use Rattle.tally.specs.Model.{shares_by};

use crate::reading::Reading;
use crate::row::Row;
use share::Share;

// Both closures hold the reading itself, not a reference to it, so that it is the same for the whole loop.

// The share of all components together, rounded down.
pub(crate) fn share_of_all(rows: &[Row], vector: &[u8], reading: Reading) -> Share
    ensures { result ≡ share_of_all rounded (shares_by reading rows.now vector.now) }
{
    rows.iter()
        .zip(vector)
        .fold(Share::whole(), move |product, (row, rank)| {
            product.times_down(row.read(reading, *rank))
        })
}

// The share of at least one component: the rest of all rests together, rounded up.
pub(crate) fn share_of_any(rows: &[Row], vector: &[u8], reading: Reading) -> Share
    ensures { result ≡ share_of_any rounded (shares_by reading rows.now vector.now) }
{
    rows.iter()
        .zip(vector)
        .fold(Share::whole(), move |none, (row, rank)| {
            none.times_up(row.read(reading, *rank).rest())
        })
        .rest()
}
