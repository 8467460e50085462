//! Records: made from parts, read, and compared.

ghost use Rattle.question.specs.Parts.{of_parts};
ghost use Rattle.question.specs.Records.{query, query_eq, query_eq_same};
ghost use Rattle.std.specs.Prelude.{◌≡◌, Decides};
ghost use Rattle.std.specs.Cmp.{decided, on_per, partial_equiv_from_equiv};

use crate::parts::Parts;
use crate::record::Record;
use vocabulary::questions::{Atom, Term};

impl Parts {
    /// Whether the two make up the same question.
    fn same(&self, other: &Parts) -> bool
        ensures { result ≡ query_eq (of_parts self.now) (of_parts other.now) }
    {
        self.head.all() == other.head.all() && self.atoms.all() == other.atoms.all()
    }
}

/// The record of a question in parts.
impl From<Parts> for Record {
    ghost from_gives = { λ parts made. query made ≡ of_parts parts };

    fn from(parts: Parts) -> Record {
        Record {
            print: parts.print(),
            parts,
        }
    }
}

impl Record {
    /// The terms of the head, in order.
    pub fn head(&self) -> &[Term]
        ensures { result.now ≡ (query self.now).head }
    {
        self.parts.head.all()
    }

    /// The atoms, in order.
    pub fn atoms(&self) -> &[Atom]
        ensures { result.now ≡ (query self.now).atoms }
    {
        self.parts.atoms.all()
    }
}

/// Two records are the same where their questions are.
// By hand: a derived test would read what lies behind the used places too.
impl PartialEq for Record {
    ghost eq = { λ x y. query_eq (query x) (query y) };

    ghost laws = { on_per query (partial_equiv_from_equiv (decided query_eq query_eq_same)) };

    fn eq(&self, other: &Record) -> bool
        ensures value { result ≡ query_eq (query self.now) (query other.now) }
        ensures same { Decides result (query self.now ≡ query other.now) }
    {
        self.print == other.print && self.parts.same(&other.parts)
    }
}
