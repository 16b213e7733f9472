// A number from 1 to a bound of one byte.
ghost use Rattle.std.specs.Prelude.{◌≡◌, if◌then◌else◌, Some, None};
ghost use Rattle.structure.specs.Conditions.{outside};

/// The number; none where it is outside 1 to `most`.
pub fn within(number: u32, most: u8) -> Option<u8>
    ensures { result ≡ (if outside number most then None else Some number) }
{
    u8::try_from(number).ok().filter(|n| (1..=most).contains(n))
}
