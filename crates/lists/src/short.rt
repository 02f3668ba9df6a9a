ghost use Rattle.std.specs.Prelude.{◌≡◌, ℕ, ◌≤◌, length};

use std::alloc::AllocError;

// The library's `ArrayVec` would not do: it is not `Copy`.
/// At most `N` values, in place: a list that can be copied and needs no memory of its own.
pub struct Short<T, const N: usize> {
    pub(crate) items: [T; N],
    pub(crate) len: usize,
    ghost few: { len ≤ N },
    ghost whole: { length items ≡ N },
}

// Both by hand: over ghost fields `Clone` is derived only where the type is always `Copy`, and this one is where its items are.
impl<T: Copy, const N: usize> Copy for Short<T, N> {}

impl<T: Copy, const N: usize> Clone for Short<T, N> {
    ghost is_clone = { λ a b. a ≡ b };

    ghost is_infallible = { λ _. Unit {0} };

    fn clone(&self) -> Result<Self, AllocError> {
        Ok(*self)
    }
}
