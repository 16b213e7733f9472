// The weighted sum of ranks.
ghost use Rattle.std.specs.Prelude.{◌≡◌, ◌≤◌, length};
ghost use Rattle.feed.specs.Feed.{weighted};

/// The sum of weight times rank over all components.
pub(crate) fn weighted_sum(weights: &[u16], ranks: &[u8]) -> u32
    requires { length weights.now ≤ 12 }
    ensures { result ≡ weighted weights.now ranks.now }
{
    weights
        .iter()
        .zip(ranks)
        .map(|(weight, rank)| u32::from(*weight) * u32::from(*rank))
        .sum()
}
