//! How often a variable stands in a question.

ghost use Rattle.std.specs.Prelude.{◌≡◌, ◌≤◌, [], ◌∷◌, length};
ghost use Rattle.question.specs.Shorts.{listed};
ghost use Rattle.theory.specs.Tidying.{all_terms, lone, times};

use crate::parts::Parts;
use crate::short::Short;
use vocabulary::questions::{Atom, Term};

/// How often the variable `n` stands among the terms.
fn occurrences(n: u8, ts: &[Term]) -> usize
    ensures { (result ≡ times n ts.now) × (result ≤ length ts.now) }
{
    ts.iter().filter(|t| Term::Variable(n) == **t).count()
}

/// How often the variable `n` stands in the atom.
// The order of the variables matches so too: no function can hand out a slice of an atom's terms, and a list made for it would be no plainer.
#[tactic(auto, unfolding(theory::specs::Tidying::all_terms))]
fn occurrences_in_atom(n: u8, a: Atom) -> usize
    ensures { (result ≡ times n (all_terms (a ∷ []))) × (result ≤ 2) }
{
    match a {
        Atom::IsIn(_, t) => occurrences(n, &[t]),
        Atom::Joins(_, t, u) => occurrences(n, &[t, u]),
    }
}

/// How often the variable `n` stands in the atoms.
pub(crate) fn occurrences_in(n: u8, xs: &Short<Atom, 6>) -> usize
    ensures { result ≡ times n (all_terms (listed xs.now)) }
{
    xs.all().iter().map(|a| occurrences_in_atom(n, *a)).sum()
}

impl Parts {
    /// Whether the variable `n` stands once, and not in the head.
    pub(crate) fn alone(&self, n: u8) -> bool
        ensures { result ≡ lone (listed self.now.head) (all_terms (listed self.now.atoms)) n }
    {
        occurrences(n, self.head.all()) == 0 && occurrences_in(n, &self.atoms) == 1
    }
}
