//! A list without repeats over places that the caller lends. Its elements may be of any type that has an equality.

#![tactic(auto)]

ghost use Rattle.std.specs.Prelude.{◌≡◌, [], length, MatchBool};
ghost use Rattle.distinct.specs.Items.{items, spare};
ghost use Rattle.distinct.specs.Puts.{Outcome};
ghost use Rattle.distinct.specs.Removals.{FirstPlace, Removal};
ghost use Rattle.distinct.specs.Repeats.{Absent, Answers, NoRepeats, Present};

/// The error that no place is free.
#[derive(Clone, Copy, PartialEq, Eq)]
pub struct Full;

/// The items lie in the first places, in the order in which they came; later places keep what they held.
/// It is no `Vec`, since the caller lends the places and the engine takes no heap. It has no `Model`, since clauses speak of the free
/// places and of which places were lent too, so that a view would be the fields again.
#[derive(Drop)]
pub struct Distinct<'a, T> {
    places: &'a mut [T],
    len: usize,
}

impl<'a, T> Distinct<'a, T> {
    /// An empty list, whatever the places hold.
    pub fn new(places: &'a mut [T]) -> Distinct<'a, T>
        ensures empty { items result ≡ [] }
        ensures places { spare result ≡ places.old }
        ensures room { length result.places.now ≡ length places.old }
        ensures lent { result.places.ghost_name ≡ places.entry.ghost_name }
    {
        Distinct { places, len: 0 }
    }

    /// How many items there are.
    pub fn len(&self) -> usize
        ensures { result ≡ length (items self.now) }
    {
        self.len.min(self.places.len())
    }

    /// The items, in the order in which they came.
    pub fn items(&self) -> &[T]
        ensures { result.now ≡ items self.now }
    {
        let count = self.len();
        &self.places[0..count]
    }

    /// The items, for as long as the places are lent: the list is spent.
    pub fn into_items(self) -> &'a [T]
        ensures { result.now ≡ items self.entry }
    {
        let count = self.len();
        let Distinct { places, len: _ } = self;
        let all: &'a [T] = places;
        &all[0..count]
    }

    /// Whether some item equals `x`.
    pub fn has(&self, x: &T) -> bool
    where
        T: PartialEq,
        ensures { MatchBool result (Present (Answers T.PartialEq.eq) (items self.now) x.now) (Absent (Answers T.PartialEq.eq) (items self.now) x.now) }
    {
        self.items().contains(x)
    }

    /// Puts `x` behind the items and says true, or says false where an item equals it already.
    pub fn put(&mut self, x: T) -> Result<bool, Full>
    where
        T: PartialEq + Copy,
        ensures outcome { Outcome (Answers T.PartialEq.eq) self.old x self.new result }
        ensures room { length self.new.places.now ≡ length self.old.places.now }
        ensures lent { self.new.places.ghost_name ≡ self.old.places.ghost_name }
        ensures distinct { NoRepeats (Answers T.PartialEq.eq) (items self.old) → NoRepeats (Answers T.PartialEq.eq) (items self.new) }
    {
        if self.has(&x) {
            return Ok(false);
        }
        let n = self.len;
        if n >= self.places.len() {
            return Err(Full);
        }
        self.places[n] = x;
        self.len = n + 1;
        Ok(true)
    }

    /// The place of the first item that equals `x`.
    fn place_of(&self, x: &T) -> Option<usize>
    where
        T: PartialEq,
        ensures { FirstPlace (Answers T.PartialEq.eq) (items self.now) x.now result }
    {
        self.items().iter().position(|y| y == x)
    }

    /// Takes out the first item that equals `x`, and says whether there was one; those behind it move up by a place.
    pub fn remove(&mut self, x: &T) -> bool
    where
        T: PartialEq + Copy,
        ensures removal { Removal (Answers T.PartialEq.eq) self.old x.now self.new result }
        ensures room { length self.new.places.now ≡ length self.old.places.now }
        ensures lent { self.new.places.ghost_name ≡ self.old.places.ghost_name }
        ensures distinct { NoRepeats (Answers T.PartialEq.eq) (items self.old) → NoRepeats (Answers T.PartialEq.eq) (items self.new) }
    {
        let Some(i) = self.place_of(x) else {
            return false;
        };
        let count = self.len();
        // The item goes to the first free place.
        self.places[i..count].rotate_left(1);
        self.len = count - 1;
        true
    }
}
