//! The state of a script that is being answered. It has a file of its own, since its ghost field may not import the definitions that
//! speak of it, which the functions in `script.rt` cite.

ghost use Rattle.script.specs.declared.offer.Offer.TheVariants as offers;
ghost use Rattle.std.specs.Option.{ForSome};
ghost use Rattle.std.specs.Prelude.{◌≡◌};

use crate::report::{Line, Report};
use crate::stock::Stock;
use std::alloc::Global;
use std::slice;

/// A script that is being answered. That a section leaves fewer lines is a relation of the lines before and after, which no
/// invariant can hold: each function that answers sections promises it.
#[derive(Drop)]
pub(crate) struct Session<'a> {
    pub(crate) heap: Global,
    /// The lines that remain.
    pub(crate) lines: slice::Iter<'a, Line<'a>>,
    /// The store between two sections. There is none unless the calls on facts are on offer.
    pub(crate) stock: Option<Stock>,
    pub(crate) report: Report,
    ghost offered: { ForSome stock (λ _. report.offer ≡ offers.Facts) },
}
