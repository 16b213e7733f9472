// The two figures of a level.
ghost use Rattle.std.specs.Prelude.{◌≡◌, ◌≤◌, unwrap_or, option_map, IfOk};
ghost use Rattle.share.specs.Shares.{rounded};
ghost use Rattle.structure.specs.Refusals.{answer_by};
ghost use Rattle.promise.specs.Calls.{Answers};
ghost use Rattle.promise.specs.Promise.{Promised};
ghost use Rattle.study.specs.Model.{figures_in};
ghost use Rattle.study.specs.Bounds.{Bounded};

use crate::ledger::Ledger;
use crate::study::Study;
use share::Share;
use structure::{Refusal, Structure};
use tally::{Reading, tally_level};

impl Ledger {
    // The figures of a level with its path and cut records counted.
    pub(crate) fn figures(&self, level: u8) -> Result<(Share, Share, usize, usize), Refusal>
        ensures answers { Answers self.now level (answer_by figures_in result) }
        ensures counted { IfOk result (λ a. (a.2 ≤ 256) × (a.3 ≤ 256)) }
        ensures bounded { Bounded self.now }
    {
        if level < 1 || level > self.best {
            return Err(Refusal::Level);
        }
        let paths = tally_level(
            &self.rows,
            &self.paths,
            level,
            Reading::UpAt,
            self.finished.then_some(Reading::DownAt),
        );
        let cuts = tally_level(
            &self.rows,
            &self.cuts,
            level,
            Reading::DownOver,
            self.finished.then_some(Reading::UpOver),
        );
        let low = better(paths.best, cuts.all);
        let high = better(cuts.best, paths.all).rest();
        Ok((low, high, paths.count, cuts.count))
    }
}

// The larger of the best vector alone and the product over the other list, where that counts.
fn better(alone: Share, together: Option<Share>) -> Share
    ensures { result ≡ unwrap_or (option_map (rounded.larger alone) together) alone }
{
    together.map_or(alone, |together| alone.larger(together))
}

impl<S: Structure + Drop> Study<S> {
    /// The low and the high figure of a level, with its path and cut records counted.
    pub fn figures(&self, level: u8) -> Result<(Share, Share, usize, usize), Refusal>
        ensures answers { Answers self.now.ledger level (answer_by figures_in result) }
        ensures counted { IfOk result (λ a. (a.2 ≤ 256) × (a.3 ≤ 256)) }
        ensures bounded { Bounded self.now.ledger }
        ensures promise { Promised self.now.ledger level (answer_by figures_in result) }
    {
        self.ledger.figures(level)
    }
}
