//! Fingerprints of questions.

ghost use Rattle.std.specs.Prelude.{◌≡◌};
ghost use Rattle.question.specs.Fingerprints.{fingerprint, mixed, print_atom, print_atoms, print_terms, term_code};
ghost use Rattle.question.specs.Parts.{of_parts};

use crate::parts::Parts;
use vocabulary::questions::{Atom, Term};

/// One more number mixed into a fingerprint.
fn mix(h: u32, k: u32) -> u32
    ensures { result ≡ mixed h k }
{
    h.wrapping_mul(16777619).wrapping_add(k)
}

/// A number of its own for each term.
fn code(t: Term) -> u32
    ensures { result ≡ term_code t }
{
    match t {
        Term::Variable(n) => n as u32,
        Term::Constant(a) => 256 + a.0 as u32,
        Term::Open => 65792,
    }
}

/// The terms of a head mixed in.
fn mix_terms(h: u32, ts: &[Term]) -> u32
    ensures { result ≡ print_terms h ts.now }
{
    ts.iter().fold(h, |print, t| mix(print, code(*t)))
}

/// An atom mixed in.
fn mix_atom(h: u32, a: Atom) -> u32
    ensures { result ≡ print_atom h a }
{
    match a {
        Atom::IsIn(c, t) => mix(mix(h, c.0 as u32), code(t)),
        Atom::Joins(l, t, u) => mix(mix(mix(h, 256 + l.0 as u32), code(t)), code(u)),
    }
}

/// Atoms mixed in.
fn mix_atoms(h: u32, xs: &[Atom]) -> u32
    ensures { result ≡ print_atoms h xs.now }
{
    xs.iter().fold(h, |print, a| mix_atom(print, *a))
}

impl Parts {
    /// The fingerprint of head and atoms.
    pub(crate) fn print(&self) -> u32
        ensures { result ≡ fingerprint (of_parts self.now) }
    {
        mix_atoms(mix_terms(0, self.head.all()), self.atoms.all())
    }
}
