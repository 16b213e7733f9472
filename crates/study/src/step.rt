// Stepping on, some vectors at a time.
ghost use Rattle.std.specs.Prelude.{◌≡◌};
ghost use Rattle.promise.specs.Calls.{Steps};
ghost use Rattle.study.specs.Model.{word_of};
ghost use Rattle.study.specs.Bounds.{Bounded};

use crate::ledger::Ledger;
use crate::study::Study;
use crate::word::Word;
use structure::Structure;

impl Ledger {
    // Examines at most `budget` further vectors.
    pub(crate) fn step<S: Structure>(&mut self, structure: &S, budget: usize) -> (usize, Word)
        ensures steps { Steps (S.Structure.shape structure.now) self.old budget result.0 (word_of result.1) self.new }
        ensures bounded { Bounded self.new }
    {
        let most = budget.min(self.vectors - self.examined);
        for number in 0..most {
            if self.examine(structure).is_none() {
                return (number, Word::Full);
            }
        }
        if self.examined < self.vectors {
            return (most, Word::Open);
        }
        self.finished = true;
        (most, Word::Finished)
    }
}

impl<S: Structure + Drop> Study<S> {
    /// Examines that many further vectors in number order, or all that are left; while budget is left it stops before a
    /// vector that needs a record in a list holding 256. Answers how many it examined, and how it ended.
    pub fn step(&mut self, budget: usize) -> (usize, Word)
        ensures steps { Steps (S.Structure.shape self.old.structure) self.old.ledger budget result.0 (word_of result.1) self.new.ledger }
        ensures same { self.new.structure ≡ self.old.structure }
        ensures bounded { Bounded self.new.ledger }
    {
        self.ledger.step(&self.structure, budget)
    }
}
