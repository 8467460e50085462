//! The store that keeps its facts in a list, in the order of their entry.

ghost use Rattle.std.specs.Prelude.{◌≡◌, ◌<◌, [], length, drop};
ghost use Rattle.distinct.proofs.Sameness.{different_had};
ghost use Rattle.distinct.specs.Items.{items, spare};
ghost use Rattle.distinct.specs.Repeats.{Different};
ghost use Rattle.facts.specs.Changes.{Entered, Withdrawn};
ghost use Rattle.facts.specs.Listings.{appended, changed, without};
ghost use Rattle.facts.specs.Passes.{ListPlaces};
ghost use Rattle.facts.specs.Rooms.{few_items, room};
ghost use Rattle.std.specs.List.{AllByRecursion};
ghost use Rattle.vocabulary.proofs.Ranges.{facts_had};
ghost use Rattle.vocabulary.specs.Ranges.{FactFits};

use crate::pass::ListPass;
use crate::source::{Source, Store};
use distinct::Distinct;
use vocabulary::effects::Effect;
use vocabulary::facts::Fact;
use vocabulary::faults::Fault;

/// It takes facts while a place is free.
#[derive(Drop)]
pub struct ListStore<'a> {
    held: Distinct<'a, Fact>,
    ghost sized: { ListPlaces (length held.places.now) },
    ghost different: { ∥ Different (items held) ∥₁ },
    ghost fitting: { ∥ AllByRecursion FactFits (items held) ∥₁ },
}

impl<'a> ListStore<'a> {
    /// An empty store over a table that passed the test, whatever it holds.
    pub fn new(pass: ListPass, table: &'a mut [Fact]) -> ListStore<'a>
        requires { ListPlaces (length table.old) }
        ensures { (items result.held ≡ []) × (spare result.held ≡ table.old) }
    {
        drop(pass);
        let held = Distinct::new(table);
        ListStore { held }
    }
}

impl Source for ListStore<'_> {
    ghost facts = { λ s. items s.held };

    ghost few = { λ s. few_items s.held.len s.held.places.now s.sized };

    ghost different = { λ s. different_had (items s.held) s.different };

    ghost fitting = { λ s. facts_had (items s.held) s.fitting };

    fn count(&self) -> usize {
        self.held.len()
    }

    fn stands(&self, fact: Fact) -> bool {
        self.held.has(&fact)
    }

    fn at(&self, place: usize) -> Option<Fact> {
        self.held.items().get(place).copied()
    }
}

impl Store for ListStore<'_> {
    ghost takes = { λ s xs f. length xs < length s.held.places.now };

    ghost ample = { λ s xs f few small. room (length s.held.places.now) (length xs) s.sized few };

    fn enter(&mut self, fact: Fact) -> Result<Effect, Fault>
        ensures entered { Entered (λ xs _. length xs < length self.old.held.places.now) (λ xs _. length xs < length self.new.held.places.now) (items self.old.held) fact (items self.new.held) result }
        ensures order { items self.new.held ≡ changed (appended fact) result (items self.old.held) }
        ensures places { spare self.new.held ≡ changed (drop 1) result (spare self.old.held) }
    {
        if !fact.fits() {
            return Err(Fault::Range);
        }
        let new = self.held.put(fact).map_err(|_| Fault::NotTaken)?;
        Ok(Effect::from(new))
    }

    fn withdraw(&mut self, fact: Fact) -> Result<Effect, Fault>
        ensures withdrawn { Withdrawn (λ xs _. length xs < length self.old.held.places.now) (λ xs _. length xs < length self.new.held.places.now) (items self.old.held) fact (items self.new.held) result }
        ensures order { items self.new.held ≡ changed (without fact) result (items self.old.held) }
        ensures places { changed (drop 1) result (spare self.new.held) ≡ spare self.old.held }
    {
        if !fact.fits() {
            return Err(Fault::Range);
        }
        Ok(Effect::from(self.held.remove(&fact)))
    }
}
