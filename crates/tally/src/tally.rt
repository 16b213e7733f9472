// One pass over a list of records for one level.
ghost use Rattle.std.specs.Prelude.{◌≡◌, ℕ, length};
ghost use Rattle.std.specs.Option.{option_map};
ghost use Rattle.share.specs.Shares.{rounded};
ghost use Rattle.structure.specs.Minimal.{covers};
ghost use Rattle.promise.specs.Figures.{best_of, all_of};
ghost use Rattle.tally.specs.Model.{entry_of, shares_by, entries_at};

use crate::products::{share_of_all, share_of_any};
use crate::reading::Reading;
use crate::record::Record;
use crate::row::Row;
use share::Share;

/// Of the records that cover a level: the best vector alone, all vectors at once where they were asked for, and how
/// many records there are.
#[derive(Clone, Copy)]
pub struct Tally {
    pub best: Share,
    pub all: Option<Share>,
    pub count: usize,
}

impl Record {
    /// The level is one of the record's.
    pub fn covers(&self, level: u8) -> bool
        ensures { (n : ℕ) → result ≡ covers level (entry_of n self.now) }
    {
        self.first <= level && level <= self.last
    }
}

/// Tallies the records of a level: the best vector by one reading, and all vectors at once by the other, where there is
/// one.
pub fn tally_level(
    rows: &[Row],
    records: &[Record],
    level: u8,
    best_by: Reading,
    all_by: Option<Reading>,
) -> Tally
    ensures best { result.best ≡ best_of rounded (shares_by best_by rows.now) (entries_at level rows.now records.now) }
    ensures all { result.all ≡ option_map (λ by. all_of rounded (shares_by by rows.now) (entries_at level rows.now records.now)) all_by }
    ensures count { result.count ≡ length (entries_at level rows.now records.now) }
{
    let mut best = Share::none();
    let mut all = Share::whole();
    let mut count: usize = 0;
    // One loop over the listed records is a fixed form of this project; a chain for each of the three would ask `covers` thrice.
    for entry in records {
        if entry.covers(level) {
            best = best.larger(share_of_all(rows, &entry.vector, best_by));
            if let Some(by) = all_by {
                all = all.times_down(share_of_any(rows, &entry.vector, by));
            }
            count += 1;
        }
    }
    Tally {
        best,
        all: all_by.map(|_| all),
        count,
    }
}
