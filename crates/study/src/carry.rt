// Carrying a module's figures to a component.
ghost use Rattle.std.specs.Prelude.{◌≡◌, ◌-◌, ◌≤◌};
ghost use Rattle.share.specs.Shares.{D};
ghost use Rattle.structure.specs.Refusals.{verdict};
ghost use Rattle.promise.specs.Held.{figures_from, carried_from};
ghost use Rattle.promise.specs.Calls.{Carries};
ghost use Rattle.tally.specs.Model.{rows_of};
ghost use Rattle.study.specs.Bounds.{Bounded};

use crate::ledger::Ledger;
use crate::study::Study;
use share::Share;
use structure::{Refusal, Structure};
use tally::Row;

impl Ledger {
    // Of a level that there is: low, and the whole less high.
    fn enclosed(&self, level: u8) -> (Share, Share)
        requires { (1 ≤ level) × (level ≤ self.now.best) }
        ensures up { result.0 ≡ (figures_from self.now level).low }
        ensures down { result.1 ≡ D - (figures_from self.now level).high }
    {
        let (low, high, _, _) = self.figures(level).unwrap();
        (low, high.rest())
    }

    // The rows that a carry of this study sets: for each level low, and the whole less high.
    fn carried_rows(&self) -> Row
        requires { self.now.best ≤ 7 }
        ensures { rows_of result ≡ carried_from self.now }
    {
        let mut up = [Share::none(); 7];
        let mut down = [Share::none(); 7];
        // By place, since each answer fills both arrays; what is written through a zipped `iter_mut` the proof would not know.
        for level in 1..=self.best {
            let place = usize::from(level - 1);
            (up[place], down[place]) = self.enclosed(level);
        }
        Row::of(self.best, up, down)
    }

    // Sets a component's two rows to the figures of a module, or refuses and changes nothing.
    pub(crate) fn carry(&mut self, component: usize, part: &Ledger) -> Result<(), Refusal>
        ensures carries { Carries self.old component part.now (verdict result) self.new }
        ensures bounded { Bounded self.new }
    {
        if component < 1 || component > self.tops.len() {
            return Err(Refusal::Component);
        }
        if part.best != self.tops[component - 1] {
            return Err(Refusal::RowLength);
        }
        let row = part.carried_rows();
        if row.is_disordered() {
            return Err(Refusal::RowOrder);
        }
        *self.row(component - 1) = row;
        Ok(())
    }
}

impl<S: Structure + Drop> Study<S> {
    /// Sets a component's two rows to the figures of a module, whose study is only read: for each rank the low of that
    /// level, and the whole less its high. Or refuses and leaves the study as it was.
    pub fn carry<N: Structure + Drop>(
        &mut self,
        component: usize,
        part: &Study<N>,
    ) -> Result<(), Refusal>
        ensures carries { Carries self.old.ledger component part.now.ledger (verdict result) self.new.ledger }
        ensures same { self.new.structure ≡ self.old.structure }
        ensures bounded { Bounded self.new.ledger }
    {
        self.ledger.carry(component, &part.ledger)
    }
}
