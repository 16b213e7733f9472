//! Numbers of every width, compared as what they are.
#![tactic(auto)]

ghost use Rattle.std.specs.Prelude.{ℕ, ◌≡◌};

/// A value that stands for a whole number of at most 64 bits.
pub trait Number {
    ghost value: { Self → ℕ };

    /// The number.
    fn wide(&self) -> u64
        ensures { result ≡ value self.now };
}

// One impl for each width: std's conversions tell by a relation what they give, and a clause needs the number itself.
impl Number for u8 {
    ghost value = { λ x. x };

    fn wide(&self) -> u64 {
        u64::from(*self)
    }
}

impl Number for u16 {
    ghost value = { λ x. x };

    fn wide(&self) -> u64 {
        u64::from(*self)
    }
}

impl Number for u32 {
    ghost value = { λ x. x };

    fn wide(&self) -> u64 {
        u64::from(*self)
    }
}

impl Number for u64 {
    ghost value = { λ x. x };

    fn wide(&self) -> u64 {
        *self
    }
}
