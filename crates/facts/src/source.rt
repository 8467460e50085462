//! What has facts: a source is read, and a store also takes facts in and gives them up.
//!
//! Code over any source or store rests on the lists that they mean, and on nothing else of their make.

ghost use Rattle.std.specs.Prelude.{◌≡◌, ◌<◌, ◌≤◌, List, length, Decides};
ghost use Rattle.distinct.specs.Repeats.{Different};
ghost use Rattle.facts.specs.Changes.{Entered, NamesBelow, Withdrawn};
ghost use Rattle.std.specs.List.{slice_get, AllByRecursion};
ghost use Rattle.vocabulary.specs.Ranges.{FactFits};
ghost use Rattle.vocabulary.specs.declared.facts.Fact.{Fact};
ghost use mathlib.Core.List.{Memᴰ};

use vocabulary::effects::Effect;
use vocabulary::facts::Fact;
use vocabulary::faults::Fault;

/// At most 4,096 different facts in range, in an order of the source's own. Asking changes nothing.
pub trait Source {
    /// The facts, in the order of their places.
    ghost facts: { Self → List Fact };

    ghost few: { (s : Self) → length (facts s) ≤ 4096 };

    ghost different: { (s : Self) → Different (facts s) };

    ghost fitting: { (s : Self) → AllByRecursion FactFits (facts s) };

    /// How many facts there are.
    fn count(&self) -> usize
        ensures { result ≡ length (facts self.now) };

    /// Whether a fact is among them.
    fn stands(&self, fact: Fact) -> bool
        ensures { Decides result (Memᴰ fact (facts self.now)) };

    /// The fact at a place, counted from 0; past the end there is none.
    fn at(&self, place: usize) -> Option<Fact>
        ensures { result ≡ slice_get (facts self.now) place };
}

/// A source that facts are entered in and withdrawn from.
pub trait Store: Source {
    /// Which facts it takes now, where it lists these and lacks them.
    ghost takes: { Self → List Fact → Fact → Type 0 };

    /// While fewer than 128 stand it takes every fact whose names are below 64.
    ghost ample: { (s : Self) (xs : List Fact) (f : Fact) → length xs < 128 → NamesBelow 64 f → takes s xs f };

    /// Enters a fact, or refuses it: first for its numbers, then because the store does not take it.
    fn enter(&mut self, fact: Fact) -> Result<Effect, Fault>
        ensures entered { Entered (takes self.old) (takes self.new) (Self.Source.facts self.old) fact (Self.Source.facts self.new) result };

    /// Withdraws a fact, or refuses it for its numbers. A fact that was withdrawn is taken again.
    fn withdraw(&mut self, fact: Fact) -> Result<Effect, Fault>
        ensures withdrawn { Withdrawn (takes self.old) (takes self.new) (Self.Source.facts self.old) fact (Self.Source.facts self.new) result };
}
