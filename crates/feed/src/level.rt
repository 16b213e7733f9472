// Whether a vector has a level, and which.
ghost use Rattle.std.specs.Prelude.{◌≡◌, ◌≤◌, length};
ghost use Rattle.structure.specs.Shape.{within};
ghost use Rattle.feed.specs.Feed.{reached};

/// Whether the vector has one rank for each top, none over it.
pub(crate) fn is_within(tops: &[u8], vector: &[u8]) -> bool
    ensures { result ≡ within tops.now vector.now }
{
    vector.len() == tops.len() && vector.iter().zip(tops).all(|(rank, top)| rank <= top)
}

/// How many thresholds the sum reaches.
pub(crate) fn thresholds_reached(thresholds: &[u32], sum: u32) -> u8
    requires { length thresholds.now ≤ 7 }
    ensures { result ≡ reached thresholds.now sum }
{
    thresholds
        .iter()
        .map(|threshold| u8::from(*threshold <= sum))
        .sum()
}
