// A short row, kept in place.
ghost use Rattle.std.specs.Prelude.{◌≡◌, ◌≤◌, length, take, ⊤};

use std::alloc::AllocError;

/// At most N values, kept in place: the first places of the array count.
pub(crate) struct Few<T, const N: usize> {
    items: [T; N],
    len: usize,
    ghost fits: { len ≤ N },
}

// No `Clone` is derived beside a ghost field where T may be any type.
impl<T: Copy, const N: usize> Clone for Few<T, N> {
    ghost is_clone = { λ x y. y ≡ x };

    ghost is_infallible = { λ _. ⊤ };

    fn clone(&self) -> Result<Few<T, N>, AllocError> {
        Ok(*self)
    }
}

impl<T: Copy, const N: usize> Copy for Few<T, N> {}

impl<T: Copy, const N: usize> Few<T, N> {
    ghost use Rattle.feed.specs.Few.{held_in};

    /// The first N values of the row; the places after them hold the rest.
    pub(crate) fn new(rest: T, row: &[T]) -> Few<T, N>
        ensures { held_in result ≡ take N row.now }
    {
        let len = row.len().min(N);
        let mut items = [rest; N];
        items[..len].copy_from_slice(&row[..len]);
        Few { items, len }
    }

    /// The values.
    pub(crate) fn as_slice(&self) -> &[T]
        ensures { result.now ≡ held_in self.now }
    {
        &self.items[..self.len]
    }
}
