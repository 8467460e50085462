//! A rewriting as a line of text.

use question::record::Record;
use std::fmt;
use vocabulary::numbers::{Class, Link, Name};
use vocabulary::questions::{Atom, Term};

/// Written as `?0` for a variable, by its number for a name, and `_` for the open term.
#[derive(Clone, Copy)]
struct ShownTerm(Term);

impl fmt::Display for ShownTerm {
    fn fmt<W: fmt::Write>(&self, f: &mut fmt::Formatter<W>) -> fmt::Result {
        match self.0 {
            Term::Variable(n) => write!(f, "?{n}"),
            Term::Constant(Name(a)) => write!(f, "{a}"),
            Term::Open => f.write_str("_"),
        }
    }
}

/// Written as `c0(?0)` or `l1(?0,_)`.
#[derive(Clone, Copy)]
struct ShownAtom(Atom);

impl fmt::Display for ShownAtom {
    fn fmt<W: fmt::Write>(&self, f: &mut fmt::Formatter<W>) -> fmt::Result {
        match self.0 {
            Atom::IsIn(Class(c), t) => write!(f, "c{c}({})", ShownTerm(t)),
            Atom::Joins(Link(l), t, u) => write!(f, "l{l}({},{})", ShownTerm(t), ShownTerm(u)),
        }
    }
}

/// The head, a colon and the atoms.
#[derive(Clone, Copy)]
pub(crate) struct Shown<'a>(pub(crate) &'a Record);

impl fmt::Display for Shown<'_> {
    fn fmt<W: fmt::Write>(&self, f: &mut fmt::Formatter<W>) -> fmt::Result {
        for t in self.0.head() {
            write!(f, "{} ", ShownTerm(*t))?;
        }
        f.write_str(":")?;
        for a in self.0.atoms() {
            write!(f, " {}", ShownAtom(*a))?;
        }
        Ok(())
    }
}
