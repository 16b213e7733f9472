// The condition on the tops of a table.
ghost use Rattle.std.specs.Prelude.{◌≡◌};
ghost use Rattle.structure.specs.Conditions.{any_outside};

/// Whether some top is not from 1 to 7.
pub fn any_outside(tops: &[u8]) -> bool
    ensures { result ≡ any_outside 7 tops.now }
{
    structure::any_outside(tops, 7)
}
