//! A sealed book: its rules and their exclusion closure.

ghost use Rattle.book.specs.Answers.{Answered};
ghost use Rattle.book.specs.Entries.{Admitted};
ghost use Rattle.book.specs.Reach.{NodeFits, NodeStep};
ghost use Rattle.book.specs.Tables.{HoldsClosure, PairOn};
ghost use Rattle.distinct.specs.Repeats.{Different};
ghost use Rattle.std.specs.Prelude.{◌≡◌, length, Decides};
ghost use Rattle.theory.specs.Closure.{Excluded, classes, links};
ghost use Rattle.theory.specs.Following.{Empty, Implied};
ghost use Rattle.theory.specs.Reaching.{Reaches};
ghost use Rattle.std.specs.List.{AllByRecursion};
ghost use Rattle.vocabulary.specs.Ranges.{RuleFits};

use crate::ranged::InRange;
use crate::reach::{Node, reaches};
use bits::relation::related;
use vocabulary::basic::{Basic, Coded, Directed};
use vocabulary::faults::Fault;
use vocabulary::rules::{Family, Rule};

/// Whether a table has the bit of two values, which it has of no value out of range.
fn shown<K: Coded, const STRIDE: u8>(words: &[u64], x: K, y: K) -> bool
    ensures { Decides result (PairOn K.fitting K.number STRIDE words.now x y) }
{
    x.fits() && y.fits() && related::<STRIDE>(words, x.index(), y.index())
}

/// It is shared and can be copied, and nobody can write to what it shows: it takes no more rules.
#[derive(Clone, Copy)]
pub struct Book<'a> {
    pub(crate) family: Family,
    pub(crate) rules: &'a [Rule],
    pub(crate) basic: &'a [u64],
    pub(crate) linked: &'a [u64],
    ghost sized: { (length basic.now ≡ 256) × (length linked.now ≡ 64) },
    ghost admitted: { ∥ AllByRecursion (Admitted family) rules.now ∥₁ },
    ghost different: { ∥ Different rules.now ∥₁ },
    ghost closed: { ∥ HoldsClosure family rules.now basic.now linked.now ∥₁ },
}

impl<'a> Book<'a> {
    /// The family whose forms the rules have.
    pub fn family(&self) -> Family
        ensures { result ≡ self.now.family }
    {
        self.family
    }

    /// The rules, in the order in which they were entered.
    pub fn rules(&self) -> &'a [Rule]
        ensures { result.now ≡ self.now.rules.now }
    {
        self.rules
    }

    /// Whether the pair of two basic classes is in the exclusion closure; a pair out of range never is.
    pub fn classes_apart(&self, b: Basic, c: Basic) -> bool
        ensures { Decides result (Excluded self.now.family self.now.rules.now (classes b c)) }
    {
        shown::<Basic, 2>(self.basic, b, c)
    }

    /// Whether the pair of two directed links is in the exclusion closure; a pair out of range never is.
    pub fn links_apart(&self, d: Directed, e: Directed) -> bool
        ensures { Decides result (Excluded self.now.family self.now.rules.now (links d e)) }
    {
        shown::<Directed, 1>(self.linked, d, e)
    }

    /// Whether every world that keeps the book keeps the rule, which may be of any form whatever the family; or the range fault.
    pub fn follows(&self, rule: Rule) -> Result<bool, Fault>
        ensures { Answered self.now.rules.now rule result }
    {
        if !rule.fits() {
            return Err(Fault::Range);
        }
        Ok(self.implies(rule))
    }

    // The range of the rule and of the nodes is asked for here: a type of nodes in range is no plainer.
    /// What reaching and the exclusion closure say of a rule in range.
    fn implies(&self, rule: Rule) -> bool
        requires { RuleFits rule }
        ensures { Decides result (Implied self.now.family self.now.rules.now rule) }
    {
        match rule {
            Rule::Within(b, c) => self.reaches(Node::Class(b), Node::Class(c)) | self.empties(b),
            Rule::Apart(b, c) => self.classes_apart(b, c) | (self.empties(b) | self.empties(c)),
            Rule::LinkWithin(d, e) => self.reaches(Node::Link(d), Node::Link(e))
                | self.empties(Basic::Start(d)),
            Rule::LinkApart(d, e) => self.implies_apart(d, e),
            Rule::Single(d) => self.rules.contains(&rule) | self.empties(Basic::Start(d)),
        }
    }

    /// Whether the within rules lead from one node to another.
    fn reaches(&self, from: Node, to: Node) -> bool
        requires { (NodeFits from) × (NodeFits to) }
        ensures { Decides result (Reaches (NodeStep self.now.rules.now) from to) }
    {
        let rules = InRange { all: self.rules };
        reaches(rules, from, to)
    }

    /// Two links have no pair in common where they, their starts or their ends are apart, or one of them is empty.
    fn implies_apart(&self, d: Directed, e: Directed) -> bool
        ensures { Decides result (Implied self.now.family self.now.rules.now (Rule.LinkApart d e)) }
    {
        let starts = self.classes_apart(Basic::Start(d), Basic::Start(e));
        let ends = self.classes_apart(Basic::Start(d.turn()), Basic::Start(e.turn()));
        let empty = self.empties(Basic::Start(d)) | self.empties(Basic::Start(e));
        self.links_apart(d, e) | (starts | (ends | empty))
    }

    /// Whether a basic class is empty in every world that keeps the book.
    fn empties(&self, b: Basic) -> bool
        ensures { Decides result (Empty self.now.family self.now.rules.now b) }
    {
        self.classes_apart(b, b)
    }
}
