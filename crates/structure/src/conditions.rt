// Conditions on numbers and rows of numbers under which calls refuse.
ghost use Rattle.std.specs.Prelude.{◌≡◌, nat_lt};
ghost use Rattle.structure.specs.Conditions.{outside, any, any_next};

use number::Number;

/// Whether the number is not from 1 to the most.
pub fn is_outside(number: u64, most: u64) -> bool
    ensures { result ≡ outside number most }
{
    !(1..=most).contains(&number)
}

/// Whether some number is not from 1 to the most.
pub fn any_outside<N: Number>(numbers: &[N], most: u64) -> bool
    ensures { result ≡ any (λ x. outside (N.Number.value x) most) numbers.now }
{
    numbers.iter().any(|x| is_outside(x.wide(), most))
}

/// Whether some number is over the most.
pub fn any_over<N: Number>(numbers: &[N], most: u64) -> bool
    ensures { result ≡ any (λ x. nat_lt most (N.Number.value x)) numbers.now }
{
    numbers.iter().any(|x| x.wide() > most)
}

/// Whether some number is above the one before it.
pub fn any_rise<N: Number>(numbers: &[N]) -> bool
    ensures { result ≡ any_next (λ x y. nat_lt (N.Number.value x) (N.Number.value y)) numbers.now }
{
    !numbers.is_sorted_by(|x, y| x.wide() >= y.wide())
}

/// Whether some number is below the one before it.
pub fn any_fall<N: Number>(numbers: &[N]) -> bool
    ensures { result ≡ any_next (λ x y. nat_lt (N.Number.value y) (N.Number.value x)) numbers.now }
{
    !numbers.is_sorted_by(|x, y| x.wide() <= y.wide())
}
