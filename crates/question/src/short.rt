//! A short list, held in an array.

ghost use Rattle.std.specs.Prelude.{◌≡◌, ◌≤◌, length};

use std::alloc::AllocError;

/// The list is the first `count` of `items`; what lies behind them says nothing.
///
/// It holds no heap, since records lie in a table that the caller lends, and it is `Copy` as they are, which an `ArrayVec` is not.
/// It has no `Model`, since the view of a `Copy` type has to give its fields back, and what lies behind the list is lost in one.
pub struct Short<T, const N: usize> {
    pub(crate) items: [T; N],
    pub(crate) count: usize,
    ghost few: { count ≤ N },
    ghost full: { length items ≡ N },
}

// By hand: a derive is refused for a generic struct with a ghost field.
impl<T: Copy, const N: usize> Copy for Short<T, N> {}

impl<T: Copy, const N: usize> Clone for Short<T, N> {
    ghost is_clone = { λ x y. y ≡ x };

    ghost is_infallible = { λ _. Unit {0} };

    fn clone(&self) -> Result<Short<T, N>, AllocError> {
        Ok(*self)
    }
}
