// Examining one vector.
ghost use Rattle.std.specs.Prelude.{◌≡◌, ◌<◌, ◌≤◌, false, IsSome, ◌+◌, ◌++◌, length, take, vec_len, vec_capacity};
ghost use Rattle.std.specs.Option.{is_some};
ghost use Rattle.study.specs.Bounds.{Bounded};
ghost use Rattle.study.specs.Examining.{FindsLevels, record_over, full_for, Lists, Examines};

use crate::ledger::{Ledger, MOST_RECORDS};
use crate::neighbours::Vector;
use crate::vectors::vector_of;
use structure::Structure;
use tally::Record;

// A vector's level, with the highest one rank lower and the lowest one rank higher.
#[derive(Clone, Copy)]
pub struct Levels {
    pub(crate) level: u8,
    pub(crate) below: u8,
    pub(crate) above: u8,
}

// There is a level over `under` up to `last`, and the list holds 256.
fn is_full(list: &[Record], under: u8, last: u8) -> bool
    ensures { result ≡ full_for list.now under last }
{
    under < last && list.len() >= MOST_RECORDS
}

// Lists the vector for the levels over `under` up to `last`, if there are any.
fn list_over(list: &mut Vec<Record>, vector: [u8; 12], under: u8, last: u8)
    requires free { full_for list.old.items under last ≡ false }
    requires room { 256 ≤ vec_capacity list.old }
    requires few { vec_len list.old ≤ 256 }
    ensures items { list.new.items ≡ list.old.items ++ record_over vector under last }
    ensures room { 256 ≤ vec_capacity list.new }
    ensures few { vec_len list.new ≤ 256 }
{
    if under < last {
        list.push_reserved(Record {
            vector,
            first: under + 1,
            last,
        });
    }
}

impl Ledger {
    // Asks the structure about a vector; none where it does not answer.
    fn levels<S: Structure>(&self, structure: &S, vector: Vector<'_>) -> Option<Levels>
        ensures { FindsLevels (S.Structure.shape structure.now) self.now.tops self.now.best vector.entry.ranks.now result }
    {
        let level = structure.level(vector.ranks)?;
        let below = vector.highest_below(structure)?;
        let above = vector.lowest_above(structure, &self.tops, self.best)?;
        Some(Levels {
            level,
            below,
            above,
        })
    }

    // Lists the records that the vector needs, and counts it as examined; none, and nothing changed, where a list that
    // needs one is full.
    fn list(&mut self, vector: [u8; 12], levels: Levels) -> Option<()>
        requires { self.old.examined < self.old.vectors }
        ensures lists { Lists self.old (take (length self.old.tops) vector) levels (is_some result) self.new }
        ensures bounded { Bounded self.new }
    {
        let paths_full = is_full(&self.paths, levels.below, levels.level);
        let cuts_full = is_full(&self.cuts, levels.level, levels.above);
        if paths_full || cuts_full {
            return None;
        }
        list_over(&mut self.paths, vector, levels.below, levels.level);
        list_over(&mut self.cuts, vector, levels.level, levels.above);
        self.examined += 1;
        Some(())
    }

    // Examines the next vector; none, and nothing changed, where a list that it needs a record in is full, or where the
    // structure does not answer.
    pub(crate) fn examine<S: Structure>(&mut self, structure: &S) -> Option<()>
        requires { self.old.examined < self.old.vectors }
        ensures examines { Examines (S.Structure.shape structure.now) self.old (is_some result) self.new }
        ensures counts { IsSome result → self.new.examined ≡ self.old.examined + 1 }
        ensures bounded { Bounded self.new }
    {
        let vector = vector_of(&self.tops, self.examined);
        let places = &vector;
        let ranks = &vector[..self.tops.len()];
        let levels = self.levels(structure, Vector { places, ranks })?;
        self.list(vector, levels)
    }
}
