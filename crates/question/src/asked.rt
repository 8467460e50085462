//! A question as it is put, and the tests that it has to pass.

ghost use Rattle.std.specs.Prelude.{◌≡◌, ◌≤◌, map, length, Decides};
ghost use Rattle.question.specs.Asked.{AtomInRange, AtomNumbered, Bound, InRange, Numbered, Recorded, Shaped, TermInRange, TermNumbered, Tested, asked_atom, asked_term};
ghost use Rattle.question.specs.Shorts.{listed};
ghost use Rattle.vocabulary.specs.declared.questions.Term.TheVariants.{Variable};

use crate::counts::occurrences_in;
use crate::parts::Parts;
use crate::record::Record;
use crate::short::Short;
use vocabulary::faults::Fault;
use vocabulary::numbers::{Class, Link, Name};
use vocabulary::questions::{Atom, Term};

/// A variable or a name.
#[derive(Clone, Copy)]
pub enum AskedTerm {
    Variable(u8),
    Named(Name),
}

/// A term in a class, or a link from one term to another. It is no `Atom` over other terms: that would be no plainer, since its tests are methods here and that type is another crate's.
#[derive(Clone, Copy)]
pub enum AskedAtom {
    InClass(Class, AskedTerm),
    Linked(Link, AskedTerm, AskedTerm),
}

/// The variables of the head, and the atoms. Nothing is asked of their numbers or lengths: the tests refuse what is wrong.
#[derive(Clone, Copy)]
pub struct Question<'a> {
    pub head: &'a [u8],
    pub atoms: &'a [AskedAtom],
}

impl AskedTerm {
    /// Whether a name is in range.
    fn in_range(self) -> bool
        ensures { Decides result (TermInRange self) }
    {
        match self {
            AskedTerm::Variable(_) => true,
            AskedTerm::Named(a) => a.fits(),
        }
    }

    /// Whether a variable is below 12.
    fn numbered(self) -> bool
        ensures { Decides result (TermNumbered self) }
    {
        match self {
            AskedTerm::Variable(n) => n < 12,
            AskedTerm::Named(_) => true,
        }
    }
}

/// The term that is worked on.
impl From<AskedTerm> for Term {
    ghost from_gives = { λ asked term. term ≡ asked_term asked };

    fn from(asked: AskedTerm) -> Term {
        match asked {
            AskedTerm::Variable(n) => Term::Variable(n),
            AskedTerm::Named(a) => Term::Constant(a),
        }
    }
}

impl AskedAtom {
    /// Whether the class or link, and every name, is in range.
    fn in_range(self) -> bool
        ensures { Decides result (AtomInRange self) }
    {
        match self {
            AskedAtom::InClass(c, t) => c.fits() && t.in_range(),
            AskedAtom::Linked(l, t, u) => l.fits() && t.in_range() && u.in_range(),
        }
    }

    /// Whether every variable is below 12.
    fn numbered(self) -> bool
        ensures { Decides result (AtomNumbered self) }
    {
        match self {
            AskedAtom::InClass(_, t) => t.numbered(),
            AskedAtom::Linked(_, t, u) => t.numbered() && u.numbered(),
        }
    }
}

/// The atom that is worked on.
impl From<AskedAtom> for Atom {
    ghost from_gives = { λ asked atom. atom ≡ asked_atom asked };

    fn from(asked: AskedAtom) -> Atom {
        match asked {
            AskedAtom::InClass(c, t) => Atom::IsIn(c, t.into()),
            AskedAtom::Linked(l, t, u) => Atom::Joins(l, t.into(), u.into()),
        }
    }
}

impl Question<'_> {
    /// Whether every class, link and name is in range.
    pub fn in_range(&self) -> bool
        ensures { Decides result (InRange self.now) }
    {
        self.atoms.iter().all(|a| a.in_range())
    }

    /// Whether head and atoms are as many as they may be.
    fn shaped(&self) -> bool
        ensures { Decides result (Shaped self.now) }
    {
        self.head.len() <= 4 && (1..=6).contains(&self.atoms.len())
    }

    /// Whether every variable is below 12.
    fn numbered(&self) -> bool
        ensures { Decides result (Numbered self.now) }
    {
        self.head.iter().all(|n| *n < 12) && self.atoms.iter().all(|a| a.numbered())
    }

    /// Whether every variable of the head stands in one of the atoms.
    fn bound(&self, atoms: &Short<Atom, 6>) -> bool
        requires { listed atoms.now ≡ map asked_atom self.now.atoms.now }
        ensures { Decides result (Bound self.now) }
    {
        self.head.iter().all(|n| occurrences_in(*n, atoms) > 0)
    }

    /// The head that is worked on.
    fn terms(&self) -> Short<Term, 4>
        requires { length self.now.head.now ≤ 4 }
        ensures { listed result ≡ map Variable self.now.head.now }
    {
        Short::mapped(self.head, Term::Variable)
    }

    /// The atoms that are worked on.
    fn body(&self) -> Short<Atom, 6>
        requires { length self.now.atoms.now ≤ 6 }
        ensures { listed result ≡ map asked_atom self.now.atoms.now }
    {
        Short::mapped(self.atoms, Atom::from)
    }

    /// The record of the question, or the fault: the shape goes before the variables, and these before the head.
    pub fn record(&self) -> Result<Record, Fault>
        ensures { Recorded self.now result }
    {
        if !self.shaped() {
            return Err(Fault::Shape);
        }
        if !self.numbered() {
            return Err(Fault::Variable);
        }
        let atoms = self.body();
        if !self.bound(&atoms) {
            return Err(Fault::Unbound);
        }
        let head = self.terms();
        Ok(Record::from(Parts { head, atoms }))
    }

    /// The record of the question, or the fault: a number out of range goes before all others.
    pub fn test(&self) -> Result<Record, Fault>
        ensures { Tested self.now result }
    {
        if !self.in_range() {
            return Err(Fault::Range);
        }
        self.record()
    }
}
