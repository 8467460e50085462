//! The variables of a question in the order in which they first stand.

ghost use Rattle.std.specs.Prelude.{◌≡◌, ◌+◌, ◌<◌, ◌≤◌, true, [], ◌∷◌, ◌++◌, length};
ghost use Rattle.question.specs.Parts.{OfAtom, Placed, of_parts};
ghost use Rattle.question.specs.Shorts.{listed};
ghost use Rattle.theory.specs.Tidying.{all_terms, firsts, known, numbered, on_query, place};
ghost use Rattle.vocabulary.specs.declared.questions.Atom.{Atom};
ghost use Rattle.vocabulary.specs.declared.questions.Term.{Term};
ghost use mathlib.Core.List.{Memᴰ};

use crate::parts::Parts;
use crate::short::Short;
use vocabulary::questions::{Atom, Term};

/// Notes the variable of the term where it is new.
#[tactic(auto, using(crate::proofs::Counting::known_any), unfolding(theory::specs::Tidying::firsts))]
fn note(seen: &mut Short<u8, 16>, t: Term)
    requires { length (listed seen.old) < 16 }
    ensures { listed seen.new ≡ firsts (t ∷ []) (listed seen.old) }
{
    if let Term::Variable(n) = t {
        seen.push_new(n);
    }
}

/// Notes those variables of the terms that are new.
#[tactic(auto, unfolding(theory::specs::Tidying::firsts))]
fn note_all(seen: &mut Short<u8, 16>, ts: &[Term])
    requires { length (listed seen.old) + length ts.now ≤ 16 }
    ensures { listed seen.new ≡ firsts ts.now (listed seen.old) }
{
    for t in ts {
        note(seen, *t);
    }
}

// Matches as counting does: `occurrences_in_atom` says why.
/// Notes those variables of the atom that are new.
#[tactic(auto, unfolding(theory::specs::Tidying::all_terms))]
fn note_atom(seen: &mut Short<u8, 16>, a: Atom)
    requires { length (listed seen.old) + 2 ≤ 16 }
    ensures { listed seen.new ≡ firsts (all_terms (a ∷ [])) (listed seen.old) }
{
    match a {
        Atom::IsIn(_, t) => note_all(seen, &[t]),
        Atom::Joins(_, t, u) => note_all(seen, &[t, u]),
    }
}

impl Parts {
    /// The variables in the order in which they first stand, head first.
    #[tactic(auto, unfolding(theory::specs::Tidying::firsts, theory::specs::Tidying::all_terms))]
    pub(crate) fn order(&self) -> Short<u8, 16>
        ensures { listed result ≡ firsts (listed self.now.head ++ all_terms (listed self.now.atoms)) [] }
    {
        let mut seen = Short::empty();
        note_all(&mut seen, self.head.all());
        for a in self.atoms.all() {
            note_atom(&mut seen, *a);
        }
        seen
    }
}

/// The place of a variable that is in the order.
fn place_of(n: u8, order: &Short<u8, 16>) -> u8
    requires { known n (listed order.now) ≡ true }
    ensures { result ≡ place n (listed order.now) }
{
    order.all().iter().position(|m| n == *m).unwrap() as u8
}

impl Parts {
    /// The question with each variable numbered by its place in the order.
    pub(crate) fn numbered(&self, order: &Short<u8, 16>) -> Parts
        requires head { (t : Term) → Memᴰ t (listed self.now.head) → Placed (listed order.now) t }
        requires atoms { (a : Atom) → Memᴰ a (listed self.now.atoms) → OfAtom (Placed (listed order.now)) a }
        ensures { of_parts result ≡ on_query (numbered (listed order.now)) (of_parts self.now) }
    {
        self.map(
            |t: Term| -> Term
                requires { Placed (listed order.now) t }
                ensures { result ≡ numbered (listed order.entry.now) t }
            {
                match t {
                    Term::Variable(n) => Term::Variable(place_of(n, order)),
                    _ => t,
                }
            },
        )
    }
}
