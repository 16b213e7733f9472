// A study of any structure.
use crate::ledger::Ledger;
use structure::Structure;

/// A study of a structure. `open` is its only maker; its fields are private, it has no default, and nothing lends its
/// structure or its ledger to be changed, so that its calls from the open on are its whole use.
// That a call leaves the structure as it was is said by each call that changes the study, as of any value that a call leaves alone.
#[derive(Drop)]
pub struct Study<S: Structure + Drop> {
    pub(crate) structure: S,
    pub(crate) ledger: Ledger,
}
