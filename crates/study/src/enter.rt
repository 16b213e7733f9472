// Entering shares.
ghost use Rattle.std.specs.Prelude.{◌≡◌, ◌<◌, length};
ghost use Rattle.std.specs.Borrow.{sem, Lends};
ghost use Rattle.structure.specs.Refusals.{verdict};
ghost use Rattle.promise.specs.Calls.{Enters};
ghost use Rattle.study.specs.Changes.{with_row_at};
ghost use Rattle.study.specs.Bounds.{Bounded};
ghost use Rattle.tally.specs.Model.{rows_of};
ghost use Rattle.study.specs.contracts.ledger.Ledger.{the_row as ledger-row};
ghost use Rattle.tally.specs.contracts.row.Row.{the_row as row-row};

use crate::ledger::Ledger;
use crate::study::Study;
use structure::{Refusal, Structure};
use tally::Row;

impl Ledger {
    // Lends the row of the component at this place, counted from 0, to be rewritten whole.
    pub(crate) fn row(&mut self, place: usize) -> &mut Row
        requires { place < length self.old.rows }
        ensures* { sem 𝓛 (Lends ledger-row row-row self.entry result (λ w. with_row_at self.old place (rows_of w))) }
    {
        &mut self.rows[place]
    }

    // Replaces a component's two rows whole, or refuses and changes nothing.
    pub(crate) fn enter(
        &mut self,
        component: usize,
        up: &[u64],
        down: &[u64],
    ) -> Result<(), Refusal>
        ensures enters { Enters self.old component (record { up = up.entry.now; down = down.now }) (verdict result) self.new }
        ensures bounded { Bounded self.new }
    {
        if component < 1 || component > self.tops.len() {
            return Err(Refusal::Component);
        }
        let row = Row::new(self.tops[component - 1], up, down)?;
        *self.row(component - 1) = row;
        Ok(())
    }
}

impl<S: Structure + Drop> Study<S> {
    /// Replaces a component's two rows whole, or refuses and leaves the study as it was.
    pub fn enter(&mut self, component: usize, up: &[u64], down: &[u64]) -> Result<(), Refusal>
        ensures enters { Enters self.old.ledger component (record { up = up.entry.now; down = down.now }) (verdict result) self.new.ledger }
        ensures same { self.new.structure ≡ self.old.structure }
        ensures bounded { Bounded self.new.ledger }
    {
        self.ledger.enter(component, up, down)
    }
}
