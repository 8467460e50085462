//! What the within rules lead to: marks on basic classes and directed links, until no rule adds one.

ghost use Rattle.bits.specs.Words.{bit};
ghost use Rattle.book.specs.Reach.{Led, LedBy, LedFirst, NodeFits, NodeOn, NodeStep, Settled, Spreads, node_code};
ghost use Rattle.std.specs.Prelude.{◌≡◌, length, Decides};
ghost use Rattle.theory.specs.Reaching.{Reaches};
ghost use Rattle.vocabulary.specs.Ranges.{DirectedFits, RuleFits};
ghost use mathlib.Core.List.{Memᴰ};

use crate::ranged::InRange;
use bits::table::{Bits, get};
use vocabulary::basic::{Basic, Coded, Directed};
use vocabulary::rules::Rule;

/// What a within rule leads on from: a basic class, or a directed link.
#[derive(Clone, Copy)]
pub(crate) enum Node {
    Class(Basic),
    Link(Directed),
}

impl Node {
    /// The bit of the node.
    fn index(self) -> usize
        ensures { result ≡ node_code self }
    {
        match self {
            Node::Class(b) => b.index(),
            Node::Link(d) => 128 + d.index(),
        }
    }
}

/// Marks on nodes, a bit for each.
#[derive(Drop)]
struct Marks<'a> {
    bits: Bits<'a>,
    ghost sized: { length bits.words.now ≡ 3 },
}

// Each step asks that its rule, link or nodes are in range: a type of nodes in range is no plainer, since each arm that takes a rule apart would owe a proof to make one.
impl<'a> Marks<'a> {
    /// A mark on one node alone, in words of any content.
    fn on(words: &'a mut [u64], n: Node) -> Marks<'a>
        requires { (length words.old ≡ 3) × (NodeFits n) }
        ensures marked { NodeOn result.bits.words.now n }
        ensures alone { (m : Node) → NodeOn result.bits.words.now m → m ≡ n }
    {
        let mut bits = Bits::clear(words);
        bits.set(n.index());
        Marks { bits }
    }

    /// Whether a node is marked.
    fn has(&self, n: Node) -> bool
        ensures { result ≡ bit self.now.bits.words.now (node_code n) }
    {
        get(self.bits.words(), n.index())
    }

    /// Marks `to` if `from` is marked, and says whether that is new.
    fn lead(&mut self, from: Node, to: Node) -> bool
        requires { (NodeFits from) × (NodeFits to) }
        ensures { Spreads (λ rules. NodeStep rules from to) (Led from to) result self.old.bits.words.now self.new.bits.words.now }
    {
        if !self.has(from) || self.has(to) {
            return false;
        }
        self.bits.set(to.index());
        true
    }

    // Not one function with the closure's `apply_link_within`: what a step does differs, and only the order of the four is the same.
    /// Lets a link within another lead on, as a link and from where it starts and ends.
    fn lead_link(&mut self, d: Directed, e: Directed) -> bool
        requires { (DirectedFits d) × (DirectedFits e) }
        ensures { Spreads (λ rules. Memᴰ (Rule.LinkWithin d e) rules) (LedBy (Rule.LinkWithin d e)) result self.old.bits.words.now self.new.bits.words.now }
    {
        let back = d.turn();
        let wide = e.turn();
        let mut any = self.lead(Node::Class(Basic::Start(d)), Node::Class(Basic::Start(e)));
        any |= self.lead(
            Node::Class(Basic::Start(back)),
            Node::Class(Basic::Start(wide)),
        );
        any |= self.lead(Node::Link(d), Node::Link(e));
        any |= self.lead(Node::Link(back), Node::Link(wide));
        any
    }

    /// Lets one rule lead on, and says whether it led to anything new.
    fn lead_by(&mut self, rule: Rule) -> bool
        requires { RuleFits rule }
        ensures { Spreads (λ rules. Memᴰ rule rules) (LedBy rule) result self.old.bits.words.now self.new.bits.words.now }
    {
        match rule {
            Rule::Within(b, c) => self.lead(Node::Class(b), Node::Class(c)),
            Rule::LinkWithin(d, e) => self.lead_link(d, e),
            Rule::Apart(_, _) | Rule::LinkApart(_, _) | Rule::Single(_) => false,
        }
    }

    // Nor one loop with the closure's `apply_all`, for the same reason.
    /// Lets every rule lead on once.
    fn lead_all(&mut self, rules: InRange<'_>) -> bool
        ensures { Spreads (λ all. all ≡ rules.entry.all.now) (LedFirst rules.entry.all.now (length rules.entry.all.now)) result self.old.bits.words.now self.new.bits.words.now }
    {
        let mut any = false;
        for rule in rules.all {
            any |= self.lead_by(*rule);
        }
        any
    }

    /// Lets all rules lead on until none leads to anything new.
    fn settle(&mut self, rules: InRange<'_>)
        ensures { Settled rules.entry.all.now self.old.bits.words.now self.new.bits.words.now }
    {
        while self.lead_all(rules) {}
    }
}

/// Whether the within rules lead from one node to another, in any number of steps or none.
pub(crate) fn reaches(rules: InRange<'_>, from: Node, to: Node) -> bool
    requires { (NodeFits from) × (NodeFits to) }
    ensures { Decides result (Reaches (NodeStep rules.entry.all.now) from to) }
{
    let mut words = [0u64; 3];
    let mut marks = Marks::on(&mut words, from);
    marks.settle(rules);
    marks.has(to)
}
