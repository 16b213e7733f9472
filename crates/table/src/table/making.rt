// The check of a table, and its making, which cannot refuse.
ghost use Rattle.std.specs.Prelude.{◌≡◌};
ghost use Rattle.table.specs.Contents.{shape_of, tags_of, made_shape, made_tags};
ghost use Rattle.structure.specs.Refusals.{verdict};
ghost use Rattle.table.specs.Table.{table_answer};

use crate::check::check_levels;
use crate::conditions::any_outside;
use crate::table::Table;
use structure::{Refusal, is_outside};

impl Table<'_> {
    /// What is wrong with a table of these contents, the refusal with the smallest number first.
    // The contents come one by one: a struct that held them would be the table itself.
    pub fn check(tops: &[u8], best: u8, tags: &[u32], levels: &[u8]) -> Result<(), Refusal>
        ensures { verdict result ≡ table_answer tops.now best tags.now levels.now }
    {
        if is_outside(tops.len() as u64, 12) {
            return Err(Refusal::Components);
        }
        if tags.len() != tops.len() {
            return Err(Refusal::Lengths);
        }
        if any_outside(tops) {
            return Err(Refusal::Tops);
        }
        if is_outside(u64::from(best), 7) {
            return Err(Refusal::Best);
        }
        check_levels(tops, best, levels)
    }
}

impl<'a> Table<'a> {
    /// The table of these contents; where the check refuses them, the built-in structure of one component with the ranks 0 and 1.
    pub fn new(tops: &'a [u8], best: u8, tags: &'a [u32], levels: &'a [u8]) -> Table<'a>
        ensures shape { shape_of result ≡ made_shape tops.now best tags.now levels.now }
        ensures tags { tags_of result ≡ made_tags tops.now best tags.now levels.now }
    {
        match Table::check(tops, best, tags, levels) {
            Ok(()) => Table {
                tops,
                best,
                tags,
                levels,
            },
            Err(_) => Table {
                tops: &[1],
                best: 1,
                tags: &[0],
                levels: &[0, 1],
            },
        }
    }
}
