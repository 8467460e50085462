//! The bit store: its facts are those whose bits are set, in the order of their bits.

ghost use Rattle.std.specs.Prelude.{◌≡◌, ◌*◌, ◌<◌, ◌≤◌, true, not, [], length};
ghost use Rattle.bitstore.specs.Layout.{bits, bytes, listing};
ghost use Rattle.bitstore.specs.Marks.{Counts, Turned, bit_at, tally};
ghost use Rattle.bitstore.specs.Passes.{BitSuits};
ghost use Rattle.bitstore.specs.Rooms.{room};
ghost use Rattle.distinct.proofs.Sameness.{different_had};
ghost use Rattle.distinct.specs.Repeats.{Different};
ghost use Rattle.facts.specs.Changes.{Entered, NamesBelow, Withdrawn};
ghost use Rattle.facts.specs.Listings.{Untouched, changed, inserted, without};
ghost use Rattle.std.specs.List.{AllByRecursion};
ghost use Rattle.vocabulary.proofs.Ranges.{facts_had};
ghost use Rattle.vocabulary.specs.Ranges.{FactFits};

use crate::layout::{bit_of, fact_at};
use crate::pass::BitPass;
use crate::scan::{bit, nth_set, reach, weight};
use facts::source::{Source, Store};
use vocabulary::effects::Effect;
use vocabulary::facts::Fact;
use vocabulary::faults::Fault;

/// A store holds at most so many facts.
const MOST: u16 = 4096;

/// It takes facts whose names are below `names` while fewer than 4,096 stand.
///
/// The fact at a place is found by counts of the set bits in each 2,048 bytes and in each 64 bytes of the table. They are arrays, since
/// a store takes no heap, and without them each place would cost a way through the table.
#[derive(Drop)]
pub struct BitStore<'a> {
    table: &'a mut [u8],
    names: usize,
    count: u16,
    wide: [u16; 32],
    close: [u16; 1024],
    ghost some: { 64 ≤ names },
    ghost most: { names ≤ 120 },
    ghost size: { length table.now ≡ bytes names },
    ghost held: { count ≡ tally (bit_at table.now) (bits names) },
    ghost small: { count ≤ 4096 },
    ghost far: { Counts (bit_at table.now) 16384 32 wide },
    ghost near: { Counts (bit_at table.now) 512 1024 close },
    ghost few: { length (listing names table.now) ≤ 4096 },
    ghost different: { ∥ Different (listing names table.now) ∥₁ },
    ghost fitting: { ∥ AllByRecursion FactFits (listing names table.now) ∥₁ },
}

impl<'a> BitStore<'a> {
    /// An empty store over a table that passed the test, whatever it holds.
    pub fn new(pass: BitPass, table: &'a mut [u8]) -> BitStore<'a>
        requires { BitSuits pass.names (length table.old) }
        ensures { (result.names ≡ pass.names) × (listing result.names result.table.now ≡ []) }
    {
        let BitPass { names } = pass;
        table.fill(0);
        BitStore {
            table,
            names,
            count: 0,
            wide: [0; 32],
            close: [0; 1024],
        }
    }

    /// Whether a bit is set.
    fn is_set(&self, k: usize) -> bool
        requires { k < bits self.now.names }
        ensures { result ≡ bit_at self.now.table.now k }
    {
        bit(self.table, k)
    }

    // That the names stay is a clause here as in the calls: it says what a call leaves as it was, which no invariant can.
    /// Turns a bit over and keeps the counts by it: it is set now if `on`, and else it is clear.
    fn turn(&mut self, k: usize, on: bool)
        requires inside { k < bits self.old.names }
        requires other { bit_at self.old.table.now k ≡ not on }
        requires room { on ≡ true → self.old.count < 4096 }
        ensures bit { Turned on k (bit_at self.old.table.now) (bit_at self.new.table.now) }
        ensures names { self.new.names ≡ self.old.names }
    {
        let step = |n: u16| if on { n + 1 } else { n - 1 };
        self.table[k / 8] ^= 1 << (k % 8);
        self.count = step(self.count);
        self.wide[k / 16384] = step(self.wide[k / 16384]);
        self.close[k / 512] = step(self.close[k / 512]);
    }
}

impl Source for BitStore<'_> {
    ghost facts = { λ s. listing s.names s.table.now };

    ghost few = { λ s. s.few };

    ghost different = { λ s. different_had (listing s.names s.table.now) s.different };

    ghost fitting = { λ s. facts_had (listing s.names s.table.now) s.fitting };

    fn count(&self) -> usize {
        usize::from(self.count)
    }

    fn stands(&self, fact: Fact) -> bool {
        let Some(k) = bit_of(fact, self.names) else {
            return false;
        };
        self.is_set(k)
    }

    fn at(&self, place: usize) -> Option<Fact> {
        if place >= self.count() {
            return None;
        }
        let wide = reach(&self.wide, 0, place, |n| usize::from(*n));
        let close = reach(&self.close, 32 * wide.at, wide.left, |n| usize::from(*n));
        let byte = reach(self.table, 64 * close.at, close.left, |b| weight(*b));
        let bit = nth_set(self.table[byte.at], byte.left);
        Some(fact_at(8 * byte.at + bit, self.names))
    }
}

impl Store for BitStore<'_> {
    ghost takes = { λ s xs f. NamesBelow s.names f × (length xs < 4096) };

    ghost ample = { λ s xs f few small. room s.names (length xs) f s.some few small };

    fn enter(&mut self, fact: Fact) -> Result<Effect, Fault>
        ensures entered { Entered (λ xs f. NamesBelow self.old.names f × (length xs < 4096)) (λ xs f. NamesBelow self.new.names f × (length xs < 4096)) (listing self.old.names self.old.table.now) fact (listing self.new.names self.new.table.now) result }
        ensures order { listing self.new.names self.new.table.now ≡ changed (inserted fact) result (listing self.old.names self.old.table.now) }
        ensures names { self.new.names ≡ self.old.names }
        ensures table { Untouched result self.old.table.now self.new.table.now }
    {
        if !fact.fits() {
            return Err(Fault::Range);
        }
        let Some(k) = bit_of(fact, self.names) else {
            return Err(Fault::NotTaken);
        };
        if self.is_set(k) {
            return Ok(Effect::Unchanged);
        }
        if self.count >= MOST {
            return Err(Fault::NotTaken);
        }
        self.turn(k, true);
        Ok(Effect::Changed)
    }

    fn withdraw(&mut self, fact: Fact) -> Result<Effect, Fault>
        ensures withdrawn { Withdrawn (λ xs f. NamesBelow self.old.names f × (length xs < 4096)) (λ xs f. NamesBelow self.new.names f × (length xs < 4096)) (listing self.old.names self.old.table.now) fact (listing self.new.names self.new.table.now) result }
        ensures order { listing self.new.names self.new.table.now ≡ changed (without fact) result (listing self.old.names self.old.table.now) }
        ensures names { self.new.names ≡ self.old.names }
        ensures table { Untouched result self.old.table.now self.new.table.now }
    {
        if !fact.fits() {
            return Err(Fault::Range);
        }
        match bit_of(fact, self.names) {
            Some(k) if self.is_set(k) => {
                self.turn(k, false);
                Ok(Effect::Changed)
            }
            _ => Ok(Effect::Unchanged),
        }
    }
}
