//! Why a call was refused.

ghost use Rattle.std.specs.Prelude.{◌≡◌};
ghost use Rattle.vocabulary.specs.Faults.{number, clash_of};

use crate::facts::Clash;

/// A refusal. Where several hold, a call answers the one with the smallest number.
#[derive(Clone, Copy, PartialEq, Eq)]
pub enum Fault {
    /// The family code is not one of a family.
    Family,
    /// A number is above its range.
    Range,
    /// The rule's form is not one of the family's.
    Form,
    /// The book has as many rules as it can hold, and the rule is new.
    BookFull,
    /// A table has a length that it may not have.
    Length,
    /// The store does not take the fact, which it does not have.
    NotTaken,
    /// The head of a question is too long, or it has no atom or too many.
    Shape,
    /// A variable is above its range.
    Variable,
    /// A variable of the head stands in no atom.
    Unbound,
    /// The file that the question is put to has no world.
    Clashing(Clash),
    /// There are more rewritings than places for them.
    Rewritings,
    /// There are more rows than places for them.
    Rows,
}

/// The number by which the fault is known.
impl From<Fault> for u8 {
    ghost from_gives = { λ fault n. n ≡ number fault };

    fn from(fault: Fault) -> u8 {
        match fault {
            Fault::Family => 1,
            Fault::Range => 2,
            Fault::Form => 3,
            Fault::BookFull => 4,
            Fault::Length => 5,
            Fault::NotTaken => 6,
            Fault::Shape => 7,
            Fault::Variable => 8,
            Fault::Unbound => 9,
            Fault::Clashing(_) => 10,
            Fault::Rewritings => 11,
            Fault::Rows => 12,
        }
    }
}

impl Fault {
    /// The clash that the fault carries, if it carries one.
    pub fn clash(self) -> Option<Clash>
        ensures { result ≡ clash_of self }
    {
        match self {
            Fault::Clashing(c) => Some(c),
            _ => None,
        }
    }
}
