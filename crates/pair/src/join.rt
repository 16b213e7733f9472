// How two structures are joined, and the level that their levels make.
ghost use Rattle.std.specs.Prelude.{◌≡◌};
ghost use Rattle.pair.specs.Joined.{joined_level};

/// How the levels of two parts make one.
#[derive(Clone, Copy)]
pub enum Join {
    /// The smaller level: both parts are needed.
    Series,
    /// The larger level: one part is enough.
    Parallel,
}

impl Join {
    /// The level of two parts with these levels.
    pub(crate) fn level_of(self, first: u8, second: u8) -> u8
        ensures { result ≡ joined_level self first second }
    {
        match self {
            Join::Series => first.min(second),
            Join::Parallel => first.max(second),
        }
    }
}
