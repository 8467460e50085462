//! The exclusion closure of a book, found by letting every rule add what it gives until none adds anything.

ghost use Rattle.bits.specs.Relations.{Inherits, Joins, On};
ghost use Rattle.book.specs.Growth.{AllDone, Always, Done, DoneFirst, EmptyKnown, EmptyKnownBelow, EndKnown, LinkKnown, Of, StartKnown, Went, tables};
ghost use Rattle.book.specs.Tables.{HoldsClosure};
ghost use Rattle.std.specs.Prelude.{◌≡◌, ◌*◌, ℕ, length, Decides};
ghost use Rattle.vocabulary.specs.Ranges.{DirectedFits, RuleFits};
ghost use mathlib.Core.List.{Memᴰ};

use crate::ranged::InRange;
use bits::relation::Relation;
use std::marker::PhantomData;
use vocabulary::basic::{Basic, Coded, Directed};
use vocabulary::numbers::Link;
use vocabulary::rules::{Family, Rule};

/// The pairs of one kind that are kept apart, as a relation on their codes.
#[derive(Drop)]
struct Apart<'a, K, const STRIDE: u8> {
    relation: Relation<'a, STRIDE>,
    kind: PhantomData<K>,
}

impl<'a, K: Coded, const STRIDE: u8> Apart<'a, K, STRIDE> {
    /// No pair, whatever the words hold.
    fn none(words: &'a mut [u64]) -> Apart<'a, K, STRIDE>
        requires { length words.old ≡ 64 * (STRIDE * STRIDE) }
        ensures { (a b : ℕ) → On STRIDE result.relation.strided.bits.words.now a b → ⊥ }
    {
        Apart {
            relation: Relation::none(words),
            kind: PhantomData,
        }
    }

    /// Whether two are kept apart.
    fn has(&self, x: K, y: K) -> bool
        ensures { Decides result (On STRIDE self.now.relation.strided.bits.words.now (K.number x) (K.number y)) }
    {
        self.relation.has(x.index(), y.index())
    }

    /// Keeps two apart, and says whether that is new.
    fn exclude(&mut self, x: K, y: K) -> bool
        ensures { Joins STRIDE (K.number x) (K.number y) result self.old.relation.strided.bits.words.now self.new.relation.strided.bits.words.now }
    {
        self.relation.add(x.index(), y.index())
    }

    /// Keeps `from` apart from all that `to` is kept apart from, and says whether that is anything new.
    fn narrow(&mut self, from: K, to: K) -> bool
        ensures { Inherits STRIDE (K.number from) (K.number to) result self.old.relation.strided.bits.words.now self.new.relation.strided.bits.words.now }
    {
        self.relation.inherit(from.index(), to.index())
    }

    /// The words, for as long as they are lent.
    fn into_words(self) -> &'a [u64]
        ensures { result.now ≡ self.entry.relation.strided.bits.words.now }
    {
        let Apart { relation, kind: _ } = self;
        relation.into_words()
    }
}

/// What is found of the closure: the basic classes and the directed links that are kept apart.
#[derive(Drop)]
pub(crate) struct Closure<'a> {
    classes: Apart<'a, Basic, 2>,
    links: Apart<'a, Directed, 1>,
}

// Each step asks that its links are in range: a type of links in range is no plainer, since each arm that takes a rule apart would owe a proof to make one.
// The family is a parameter of five methods: as a field, each would promise that it stays.
impl<'a> Closure<'a> {
    /// The exclusion closure of the rules, in two tables of any content: rounds until one adds nothing.
    pub(crate) fn of(
        family: Family,
        rules: InRange<'_>,
        basic: &'a mut [u64],
        linked: &'a mut [u64],
    ) -> Closure<'a>
        requires { (length basic.old ≡ 256) × (length linked.old ≡ 64) }
        ensures { HoldsClosure family rules.entry.all.now (tables result).0 (tables result).1 }
    {
        let mut closure = Closure {
            classes: Apart::none(basic),
            links: Apart::none(linked),
        };
        while closure.round(family, rules) {}
        closure
    }

    /// The two tables, for as long as they are lent.
    pub(crate) fn into_words(self) -> (&'a [u64], &'a [u64])
        ensures { (result.0.now ≡ (tables self.entry).0) × (result.1.now ≡ (tables self.entry).1) }
    {
        let Closure { classes, links } = self;
        (classes.into_words(), links.into_words())
    }

    /// One round: every rule, then every directed link.
    fn round(&mut self, family: Family, rules: InRange<'_>) -> bool
        ensures { Went (Of family rules.entry.all.now) (AllDone family rules.entry.all.now) result (tables self.old) (tables self.new) }
    {
        let mut any = self.apply_all(rules);
        any |= self.spread_all(family);
        any
    }

    /// Every rule adds what it gives.
    fn apply_all(&mut self, rules: InRange<'_>) -> bool
        ensures { Went (λ _ all. all ≡ rules.entry.all.now) (DoneFirst rules.entry.all.now (length rules.entry.all.now)) result (tables self.old) (tables self.new) }
    {
        let mut any = false;
        for rule in rules.all {
            any |= self.apply(*rule);
        }
        any
    }

    /// Lets one rule add what it gives, and says whether that is anything new.
    fn apply(&mut self, rule: Rule) -> bool
        requires { RuleFits rule }
        ensures { Went (λ _ rules. Memᴰ rule rules) (Done rule) result (tables self.old) (tables self.new) }
    {
        match rule {
            Rule::Within(b, c) => self.classes.narrow(b, c),
            Rule::Apart(b, c) => self.classes.exclude(b, c),
            Rule::LinkWithin(d, e) => self.apply_link_within(d, e),
            Rule::LinkApart(d, e) => {
                let mut any = self.links.exclude(d, e);
                any |= self.links.exclude(d.turn(), e.turn());
                any
            }
            Rule::Single(_) => false,
        }
    }

    // Not one function with the marks' `lead_link`: what a step does differs, and only the order of the four is the same.
    /// A link within another: what holds of its pairs, of where it starts and of where it ends.
    fn apply_link_within(&mut self, d: Directed, e: Directed) -> bool
        requires { (DirectedFits d) × (DirectedFits e) }
        ensures { Went (λ _ rules. Memᴰ (Rule.LinkWithin d e) rules) (Done (Rule.LinkWithin d e)) result (tables self.old) (tables self.new) }
    {
        let back = d.turn();
        let wide = e.turn();
        let mut any = self.classes.narrow(Basic::Start(d), Basic::Start(e));
        any |= self.classes.narrow(Basic::Start(back), Basic::Start(wide));
        any |= self.links.narrow(d, e);
        any |= self.links.narrow(back, wide);
        any
    }

    /// Every directed link that is known to be empty is known so everywhere.
    fn spread_all(&mut self, family: Family) -> bool
        ensures { Went (λ f _. f ≡ family) (EmptyKnownBelow family 32) result (tables self.old) (tables self.new) }
    {
        let mut any = false;
        for number in 0..32u8 {
            any |= self.spread(family, Directed::Forward(Link(number)));
            any |= self.spread(family, Directed::Backward(Link(number)));
        }
        any
    }

    /// Lets one directed link that is known to be empty be known so everywhere, and says whether that is anything new.
    fn spread(&mut self, family: Family, d: Directed) -> bool
        requires { DirectedFits d }
        ensures { Went (λ f _. f ≡ family) (EmptyKnown family d) result (tables self.old) (tables self.new) }
    {
        let mut any = self.spread_end(d);
        any |= self.spread_link(d);
        any |= self.spread_start(family, d);
        any
    }

    /// A link that has no end has no start.
    fn spread_end(&mut self, d: Directed) -> bool
        requires { DirectedFits d }
        ensures { Went Always (EndKnown d) result (tables self.old) (tables self.new) }
    {
        let end = Basic::Start(d.turn());
        if self.classes.has(end, end) {
            self.classes.exclude(Basic::Start(d), Basic::Start(d))
        } else {
            false
        }
    }

    /// A link that has no pair has no start.
    fn spread_link(&mut self, d: Directed) -> bool
        requires { DirectedFits d }
        ensures { Went Always (LinkKnown d) result (tables self.old) (tables self.new) }
    {
        if self.links.has(d, d) {
            self.classes.exclude(Basic::Start(d), Basic::Start(d))
        } else {
            false
        }
    }

    /// A link that has no start has no pair, which some families put into the closure.
    fn spread_start(&mut self, family: Family, d: Directed) -> bool
        requires { DirectedFits d }
        ensures { Went (λ f _. f ≡ family) (StartKnown family d) result (tables self.old) (tables self.new) }
    {
        let start = Basic::Start(d);
        if family.links_too() && self.classes.has(start, start) {
            self.links.exclude(d, d)
        } else {
            false
        }
    }
}
