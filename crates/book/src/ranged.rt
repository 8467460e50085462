//! Rules that are all in range, by which the closure is found and nodes are reached.

ghost use Rattle.book.specs.Growth.{AllFit};

use vocabulary::rules::Rule;

/// A list of rules in range.
#[derive(Clone, Copy)]
pub(crate) struct InRange<'a> {
    pub(crate) all: &'a [Rule],
    ghost fit: { ∥ AllFit all.now ∥₁ },
}
