// Showing a record.
ghost use Rattle.std.specs.Prelude.{◌≡◌, map, length};
ghost use Rattle.structure.specs.Refusals.{answer_by};
ghost use Rattle.promise.specs.Calls.{list_of, Shows};
ghost use Rattle.promise.specs.Shown.{Shown};
ghost use Rattle.tally.specs.Model.{entry_of};
ghost use Rattle.study.specs.Model.{side_of};
ghost use Rattle.study.specs.Bounds.{Bounded};

use crate::ledger::Ledger;
use crate::side::Side;
use crate::study::Study;
use structure::{Refusal, Structure};
use tally::Record;

impl Ledger {
    // The records of one list.
    fn records(&self, side: Side) -> &[Record]
        ensures listed { map (entry_of (length self.now.tops)) result.now ≡ list_of self.now (side_of side) }
        ensures bounded { Bounded self.now }
    {
        match side {
            Side::Paths => self.paths.as_slice(),
            Side::Cuts => self.cuts.as_slice(),
        }
    }

    // Writes the vector of a record, counted from 1, into the row, and answers the record's first and last level; or
    // refuses and leaves the row.
    pub(crate) fn show(
        &self,
        side: Side,
        number: usize,
        row: &mut [u8],
    ) -> Result<(u8, u8), Refusal>
        ensures shows { Shows self.now (side_of side) number row.old (answer_by (λ levels. levels) result) row.new }
        ensures bounded { Bounded self.now }
    {
        let records = self.records(side);
        if number < 1 || number > records.len() {
            return Err(Refusal::Record);
        }
        if row.len() != self.tops.len() {
            return Err(Refusal::Room);
        }
        let record = records[number - 1];
        row.copy_from_slice(&record.vector[0..row.len()]);
        Ok((record.first, record.last))
    }
}

impl<S: Structure + Drop> Study<S> {
    /// Writes the vector of a record, counted from 1, into the row, and answers the record's first and last level; or
    /// refuses and leaves the row as it was.
    pub fn show(&self, side: Side, number: usize, row: &mut [u8]) -> Result<(u8, u8), Refusal>
        ensures shows { Shows self.now.ledger (side_of side) number row.old (answer_by (λ levels. levels) result) row.new }
        ensures bounded { Bounded self.now.ledger }
        ensures promise { Shown self.now.ledger (side_of side) (answer_by (λ levels. levels) result) row.new }
    {
        self.ledger.show(side, number, row)
    }
}
