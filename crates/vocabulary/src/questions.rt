//! Terms and atoms of questions, and what makes two terms equal.

ghost use Rattle.std.specs.Prelude.{◌≡◌, Decides};
ghost use Rattle.std.specs.Cmp.{decided, partial_equiv_from_equiv};
ghost use Rattle.vocabulary.specs.Equality.{term_eq, atom_eq};
ghost use Rattle.vocabulary.specs.Equality.{term_eq_same, atom_eq_same};

use crate::numbers::{Class, Link, Name};

/// A variable, a name, or the open term, which is a variable that stands nowhere else.
#[derive(Clone, Copy)]
pub enum Term {
    Variable(u8),
    Constant(Name),
    Open,
}

/// Two terms are the same where kind and number are.
/// By hand: a derive does not promise sameness, and leaves no line in which an edit could turn its meaning.
impl PartialEq for Term {
    ghost eq = { term_eq };

    ghost laws = { partial_equiv_from_equiv (decided term_eq term_eq_same) };

    fn eq(&self, other: &Term) -> bool
        ensures value { result ≡ term_eq self.now other.now }
        ensures same { Decides result (self.now ≡ other.now) }
    {
        match (*self, *other) {
            (Term::Variable(m), Term::Variable(n)) => m == n,
            (Term::Constant(a), Term::Constant(b)) => a == b,
            (Term::Open, Term::Open) => true,
            _ => false,
        }
    }
}

/// A term in a class, or a link from one term to another. Why no generic type stands for facts and atoms is said at `Fact`.
#[derive(Clone, Copy)]
pub enum Atom {
    IsIn(Class, Term),
    Joins(Link, Term, Term),
}

/// Two atoms are the same where kind, number and terms are.
/// By hand: a derive does not promise sameness, and leaves no line in which an edit could turn its meaning.
impl PartialEq for Atom {
    ghost eq = { atom_eq };

    ghost laws = { partial_equiv_from_equiv (decided atom_eq atom_eq_same) };

    fn eq(&self, other: &Atom) -> bool
        ensures value { result ≡ atom_eq self.now other.now }
        ensures same { Decides result (self.now ≡ other.now) }
    {
        match (*self, *other) {
            (Atom::IsIn(c, t), Atom::IsIn(d, u)) => c == d && t == u,
            (Atom::Joins(l, t, u), Atom::Joins(m, v, w)) => l == m && t == v && u == w,
            _ => false,
        }
    }
}

/// What makes two terms equal, where something does. An option of a binding would be no plainer, since unifying answers an option of this.
#[derive(Clone, Copy)]
pub enum Unifier {
    /// Nothing has to be done.
    Trivial,
    /// The variable gives way to the term wherever it stands.
    Binds(u8, Term),
}
