//! A question while it is worked on.

use crate::short::Short;
use vocabulary::questions::{Atom, Term};

/// The head and the atoms: at most 4 terms and at most 6 atoms.
#[derive(Clone, Copy)]
pub struct Parts {
    pub(crate) head: Short<Term, 4>,
    pub(crate) atoms: Short<Atom, 6>,
}
