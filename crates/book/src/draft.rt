//! A draft of a book, which takes rules until it is sealed.

ghost use Rattle.book.specs.Entries.{Admitted, Entered, left_free};
ghost use Rattle.book.specs.Passes.{Sized};
ghost use Rattle.book.specs.Tables.{HoldsClosure};
ghost use Rattle.distinct.specs.Items.{items, spare};
ghost use Rattle.distinct.specs.Repeats.{Different};
ghost use Rattle.std.specs.List.{AllByRecursion};
ghost use Rattle.std.specs.Prelude.{◌≡◌, [], length};

use crate::book::Book;
use crate::closure::Closure;
use crate::pass::Pass;
use crate::ranged::InRange;
use distinct::Distinct;
use vocabulary::effects::Effect;
use vocabulary::faults::Fault;
use vocabulary::rules::{Family, Rule};

/// The rules that were entered, in order, and the room for the closure, which nothing reads or writes before sealing.
#[derive(Drop)]
pub struct Draft<'a> {
    family: Family,
    rules: Distinct<'a, Rule>,
    basic: &'a mut [u64],
    linked: &'a mut [u64],
    ghost sized: { (length rules.places.now ≡ 256) × (length basic.now ≡ 256) × (length linked.now ≡ 64) },
    ghost admitted: { ∥ AllByRecursion (Admitted family) (items rules) ∥₁ },
    ghost different: { ∥ Different (items rules) ∥₁ },
}

impl<'a> Draft<'a> {
    /// A blank draft over tables that passed the test, whatever they hold.
    pub fn open(
        pass: Pass,
        rules: &'a mut [Rule],
        basic: &'a mut [u64],
        linked: &'a mut [u64],
    ) -> Draft<'a>
        requires { Sized (length rules.old) (length basic.old) (length linked.old) }
        ensures family { result.family ≡ pass.family }
        ensures blank { items result.rules ≡ [] }
        ensures tables { (spare result.rules ≡ rules.old) × (result.basic.now ≡ basic.old) × (result.linked.now ≡ linked.old) }
    {
        let Pass { family } = pass;
        let rules = Distinct::new(rules);
        Draft {
            family,
            rules,
            basic,
            linked,
        }
    }

    /// Enters a rule, or refuses it: first for its numbers, then for its form, then for want of a place.
    pub fn enter(&mut self, rule: Rule) -> Result<Effect, Fault>
        ensures entered { Entered self.old.family (items self.old.rules) rule (items self.new.rules) result }
        ensures places { spare self.new.rules ≡ left_free result (spare self.old.rules) }
        ensures family { self.new.family ≡ self.old.family }
        ensures tables { (self.new.basic.now ≡ self.old.basic.now) × (self.new.linked.now ≡ self.old.linked.now) }
    {
        if !rule.fits() {
            return Err(Fault::Range);
        }
        if !self.family.takes(rule) {
            return Err(Fault::Form);
        }
        let new = self.rules.put(rule).map_err(|_| Fault::BookFull)?;
        Ok(Effect::from(new))
    }

    /// The sealed book: the draft is used up, and its rules stay as they are.
    pub fn seal(self) -> Book<'a>
        ensures family { result.family ≡ self.entry.family }
        ensures rules { result.rules.now ≡ items self.entry.rules }
        ensures closure { HoldsClosure self.entry.family (items self.entry.rules) result.basic.now result.linked.now }
    {
        let Draft {
            family,
            rules,
            basic,
            linked,
        } = self;
        let rules = rules.into_items();
        let in_range = InRange { all: rules };
        let (basic, linked) = Closure::of(family, in_range, basic, linked).into_words();
        Book {
            family,
            rules,
            basic,
            linked,
        }
    }
}
