//! Facts as scripts write them: `c5(7)` puts name 7 into class 5, `l1(7,8)` leads link 1 from name 7 to name 8.

use crate::words::{code, number};
use std::fmt;
use vocabulary::facts::Fact;
use vocabulary::numbers::{Class, Link, Name};

/// The fact that a word writes.
pub(crate) fn fact(word: &str) -> Option<Fact> {
    let (set, names) = word.strip_suffix(')')?.split_once('(')?;
    if let Some(class) = set.strip_prefix('c') {
        return Some(Fact::InClass(Class(code(class)?), name(names)?));
    }
    let link = set.strip_prefix('l')?;
    let (from, to) = names.split_once(',')?;
    Some(Fact::Linked(Link(code(link)?), name(from)?, name(to)?))
}

// Not one function with `code` and `size`: one line each, and nothing says of any type of numbers which is its largest.
/// The name that a word writes. One past 65,535 answers that, which is out of range too.
fn name(word: &str) -> Option<Name> {
    Some(Name(u16::try_from(number(word)?).unwrap_or(u16::MAX)))
}

/// A fact to be written.
#[derive(Clone, Copy)]
pub(crate) struct Shown(pub(crate) Fact);

impl fmt::Display for Shown {
    fn fmt<W: fmt::Write>(&self, f: &mut fmt::Formatter<W>) -> fmt::Result {
        match self.0 {
            Fact::InClass(Class(c), Name(a)) => write!(f, "c{c}({a})"),
            Fact::Linked(Link(l), Name(a), Name(b)) => write!(f, "l{l}({a},{b})"),
        }
    }
}
