// The theorem on rounding, held by a contract.
ghost use Rattle.share.specs.Rounding.{Rounds};

/// States the theorem that rounding keeps every product of shares near the exact one.
pub fn rounding_stands() -> bool
    ensures { Rounds }
{
    true
}
