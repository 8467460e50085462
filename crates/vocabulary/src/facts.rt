//! Facts, and what a clash names.

ghost use Rattle.std.specs.Prelude.{◌≡◌, Decides};
ghost use Rattle.vocabulary.specs.Ranges.{FactFits};
ghost use Rattle.std.specs.Cmp.{decided, partial_equiv_from_equiv};
ghost use Rattle.vocabulary.specs.Equality.{fact_eq};
ghost use Rattle.vocabulary.specs.Equality.{fact_eq_same};

use crate::numbers::{Class, Link, Name};

/// A name in a class, or a link from one name to another.
///
/// No generic type stands for facts and atoms: it would be no plainer, since `==` promises sameness of each and would be written for each anyway.
#[derive(Clone, Copy, Eq)]
pub enum Fact {
    InClass(Class, Name),
    Linked(Link, Name, Name),
}

impl Fact {
    /// Whether every number in the fact is in range.
    pub fn fits(self) -> bool
        ensures { Decides result (FactFits self) }
    {
        match self {
            Fact::InClass(c, a) => c.fits() && a.fits(),
            Fact::Linked(l, a, b) => l.fits() && a.fits() && b.fits(),
        }
    }
}

/// Two facts are the same where kind and numbers are.
/// By hand: a derive does not promise sameness, and leaves no line in which an edit could turn its meaning.
impl PartialEq for Fact {
    ghost eq = { fact_eq };

    ghost laws = { partial_equiv_from_equiv (decided fact_eq fact_eq_same) };

    fn eq(&self, other: &Fact) -> bool
        ensures value { result ≡ fact_eq self.now other.now }
        ensures same { Decides result (self.now ≡ other.now) }
    {
        match (*self, *other) {
            (Fact::InClass(c, a), Fact::InClass(d, b)) => c == d && a == b,
            (Fact::Linked(l, a, b), Fact::Linked(m, x, y)) => l == m && a == x && b == y,
            _ => false,
        }
    }
}

/// The one or two facts that contradict the rules.
#[derive(Clone, Copy, PartialEq, Eq)]
pub enum Clash {
    One(Fact),
    Two(Fact, Fact),
}
