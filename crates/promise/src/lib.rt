//! What a study promises of its figures and of its lists, after any use.
#![tactic(auto)]

ghost use Rattle.promise.specs.Promise.{Stands, KeepsPromise};
ghost use Rattle.promise.specs.Shown.{ShowsMet};

/// States the main theorem: after every use that keeps the rules, and for every level, the figures keep the promise. And
/// so does the answer of figures by every study, since its calls, each by what it does alone, make up such a use; and
/// what a study shows are minimal vectors that it has met.
pub fn promise_stands() -> bool
    ensures stands { Stands }
    ensures kept { KeepsPromise }
    ensures shown { ShowsMet }
{
    true
}
