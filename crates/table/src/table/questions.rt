// What a table answers.
ghost use Rattle.table.specs.Contents.{shape_of, tags_of};
ghost use Rattle.table.specs.Passed.{table_lawful, tags_long};

use crate::table::Table;
use crate::vector_number::number_of;
use structure::Structure;

impl Structure for Table<'_> {
    ghost shape = { shape_of };

    ghost tags = { tags_of };

    ghost lawful = { λ t. table_lawful t.tops.now t.best t.tags.now t.levels.now t.passes };

    ghost tagged = { λ t. tags_long t.tops.now t.best t.tags.now t.levels.now t.passes };

    fn components(&self) -> usize {
        self.tops.len()
    }

    fn best(&self) -> u8 {
        self.best
    }

    fn top(&self, component: usize) -> Option<u8> {
        self.tops.get(component.checked_sub(1)?).copied()
    }

    fn tag(&self, component: usize) -> Option<u32> {
        self.tags.get(component.checked_sub(1)?).copied()
    }

    fn level(&self, vector: &[u8]) -> Option<u8> {
        let number = number_of(self.tops, vector)?;
        Some(self.levels[number])
    }

    fn vectors(&self) -> usize {
        self.levels.len()
    }
}
