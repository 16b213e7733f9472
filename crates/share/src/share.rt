// A share, and the three operations of which every figure is made.
ghost use Rattle.std.specs.Prelude.{◌≡◌, ◌≤◌, if◌then◌else◌, Some, None, nat_le};
ghost use Rattle.share.specs.Shares.{D, rounded};

use std::marker::Model;

/// The whole, in billionths.
pub const WHOLE: u64 = 1_000_000_000;

/// A share of the whole, in billionths.
#[derive(Clone, Copy, Debug, PartialEq, Eq, PartialOrd, Ord)]
pub struct Share {
    value: u64,
}

impl Model for Share {
    ghost use Rattle.std.specs.Prelude.{ℕ, ◌≤◌};
    ghost use Rattle.share.specs.Shares.{D};

    ghost Value = { ℕ };

    ghost use Rattle.share.specs.Billionths.{billionths_in};

    ghost view = { billionths_in };

    ghost invariant = { λ s. s.value ≤ D };

    ghost inverse = { λ n. record { value = n } };
}

impl Share {
    /// The share of this many billionths; none where that is over the whole.
    // An `Option` and no `TryFrom`: an error type would name the one thing that none says already.
    pub fn new(billionths: u64) -> Option<Share>
        ensures { result ≡ (if nat_le billionths D then Some billionths else None) }
    {
        if billionths > WHOLE {
            return None;
        }
        Some(Share { value: billionths })
    }

    /// No share.
    pub fn none() -> Share
        ensures { result ≡ 0 }
    {
        Share { value: 0 }
    }

    /// The whole.
    pub fn whole() -> Share
        ensures { result ≡ D }
    {
        Share { value: WHOLE }
    }

    /// The share in billionths.
    pub fn billionths(self) -> u64
        ensures number { result ≡ self }
        ensures within { result ≤ D }
    {
        self.value
    }

    /// The product of two shares, rounded down.
    pub fn times_down(self, other: Share) -> Share
        ensures { result ≡ rounded.times_down self other }
    {
        Share {
            value: self.value * other.value / WHOLE,
        }
    }

    /// The product of two shares, rounded up.
    pub fn times_up(self, other: Share) -> Share
        ensures { result ≡ rounded.times_up self other }
    {
        Share {
            value: (self.value * other.value + (WHOLE - 1)) / WHOLE,
        }
    }

    /// The rest to the whole.
    pub fn rest(self) -> Share
        ensures { result ≡ rounded.rest self }
    {
        Share {
            value: WHOLE - self.value,
        }
    }

    /// The larger of two shares.
    pub fn larger(self, other: Share) -> Share
        ensures { result ≡ rounded.larger self other }
    {
        self.max(other)
    }
}
