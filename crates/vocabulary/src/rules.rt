//! The five forms of a rule, and the families of books.

ghost use Rattle.std.specs.Prelude.{◌≡◌, Decides};
ghost use Rattle.vocabulary.specs.Families.{LinksToo, Takes, family_code};
ghost use Rattle.vocabulary.specs.Ranges.{RuleFits};
ghost use Rattle.vocabulary.specs.Refusals.{FamilyOf};
ghost use Rattle.std.specs.Cmp.{decided, partial_equiv_from_equiv};
ghost use Rattle.vocabulary.specs.Equality.{rule_eq};
ghost use Rattle.vocabulary.specs.Equality.{rule_eq_same};

use crate::basic::{Basic, Coded, Directed};
use crate::faults::Fault;

/// A rule of a book.
#[derive(Clone, Copy)]
pub enum Rule {
    /// Each thing of the first is in the second.
    Within(Basic, Basic),
    /// No thing is in both.
    Apart(Basic, Basic),
    /// Each pair of the first is a pair of the second.
    LinkWithin(Directed, Directed),
    /// No pair is in both.
    LinkApart(Directed, Directed),
    /// No thing has two different partners along it.
    Single(Directed),
}

impl Rule {
    /// Whether every number in the rule is in range.
    pub fn fits(self) -> bool
        ensures { Decides result (RuleFits self) }
    {
        match self {
            Rule::Within(b, c) => b.fits() && c.fits(),
            Rule::Apart(b, c) => b.fits() && c.fits(),
            Rule::LinkWithin(d, e) => d.fits() && e.fits(),
            Rule::LinkApart(d, e) => d.fits() && e.fits(),
            Rule::Single(d) => d.fits(),
        }
    }
}

/// Two rules are the same where form and codes are.
/// By hand: a derive does not promise sameness, and leaves no line in which an edit could turn its meaning.
impl PartialEq for Rule {
    ghost eq = { rule_eq };

    ghost laws = { partial_equiv_from_equiv (decided rule_eq rule_eq_same) };

    fn eq(&self, other: &Rule) -> bool
        ensures value { result ≡ rule_eq self.now other.now }
        ensures same { Decides result (self.now ≡ other.now) }
    {
        match (*self, *other) {
            (Rule::Within(a, b), Rule::Within(c, d)) => a == c && b == d,
            (Rule::Apart(a, b), Rule::Apart(c, d)) => a == c && b == d,
            (Rule::LinkWithin(a, b), Rule::LinkWithin(c, d)) => a == c && b == d,
            (Rule::LinkApart(a, b), Rule::LinkApart(c, d)) => a == c && b == d,
            (Rule::Single(a), Rule::Single(c)) => a == c,
            _ => false,
        }
    }
}

/// Which forms a book takes: family R has rules on links, family F has single links.
#[derive(Clone, Copy, PartialEq, Eq)]
pub enum Family {
    R,
    F,
}

/// The family of a code, or the fault for any code but 0 and 1.
impl TryFrom<u8> for Family {
    type Error = Fault;

    ghost try_from_gives = { FamilyOf };

    fn try_from(code: u8) -> Result<Family, Fault> {
        match code {
            0 => Ok(Family::R),
            1 => Ok(Family::F),
            _ => Err(Fault::Family),
        }
    }
}

/// 0 for R, 1 for F.
impl From<Family> for u8 {
    ghost from_gives = { λ family n. n ≡ family_code family };

    fn from(family: Family) -> u8 {
        match family {
            Family::R => 0,
            Family::F => 1,
        }
    }
}

impl Family {
    /// Whether a rule's form is one of the family's.
    pub fn takes(self, rule: Rule) -> bool
        ensures { Decides result (Takes self rule) }
    {
        match (self, rule) {
            (_, Rule::Within(_, _)) => true,
            (_, Rule::Apart(_, _)) => true,
            (Family::R, Rule::LinkWithin(_, _)) => true,
            (Family::R, Rule::LinkApart(_, _)) => true,
            (Family::F, Rule::Single(_)) => true,
            _ => false,
        }
    }

    /// Whether an empty link excludes itself as a link, and not only at its start and its end.
    pub fn links_too(self) -> bool
        ensures { Decides result (LinksToo self) }
    {
        match self {
            Family::R => true,
            Family::F => false,
        }
    }
}
