//! One change made to every term of a question.

ghost use Rattle.question.specs.Parts.{OfAtom, of_parts};
ghost use Rattle.question.specs.Shorts.{Computes, listed};
ghost use Rattle.theory.specs.Tidying.{on_query, on_terms};
ghost use Rattle.vocabulary.specs.declared.questions.Atom.{Atom};
ghost use Rattle.vocabulary.specs.declared.questions.Term.{Term};
ghost use Rattle.std.specs.Prelude.{◌≡◌, map};
ghost use mathlib.Core.List.{Memᴰ};

use crate::parts::Parts;
use crate::short::Short;
use vocabulary::questions::{Atom, Term};

/// An atom with each of its terms changed.
fn on_atom<F: Fn(Term) -> Term>(a: Atom, f: &F) -> Atom
    requires { OfAtom (F.pre f.now) a }
    ensures { (g : Term → Term) → Computes (F.pre f.now) (F.post f.now) g → result ≡ on_terms g a }
{
    match a {
        Atom::IsIn(c, t) => Atom::IsIn(c, f(t)),
        Atom::Joins(l, t, u) => Atom::Joins(l, f(t), f(u)),
    }
}

/// Atoms with each of their terms changed.
pub(crate) fn on_atoms<F: Fn(Term) -> Term>(xs: &Short<Atom, 6>, f: &F) -> Short<Atom, 6>
    requires { (a : Atom) → Memᴰ a (listed xs.now) → OfAtom (F.pre f.now) a }
    ensures { (g : Term → Term) → Computes (F.pre f.now) (F.post f.now) g → listed result ≡ map (on_terms g) (listed xs.now) }
{
    Short::mapped(
        xs.all(),
        |a: Atom| -> Atom
            requires { OfAtom (F.pre f.now) a }
        { on_atom(a, f) },
    )
}

impl Parts {
    /// The question with each of its terms changed.
    pub(crate) fn map<F: Fn(Term) -> Term>(&self, f: F) -> Parts
        requires head { (t : Term) → Memᴰ t (listed self.now.head) → F.pre f t }
        requires atoms { (a : Atom) → Memᴰ a (listed self.now.atoms) → OfAtom (F.pre f) a }
        ensures { (g : Term → Term) → Computes (F.pre f) (F.post f) g → of_parts result ≡ on_query g (of_parts self.now) }
    {
        Parts {
            head: Short::mapped(self.head.all(), &f),
            atoms: on_atoms(&self.atoms, &f),
        }
    }
}
