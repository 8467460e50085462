//! The facts of a source, one after another.

ghost use Rattle.std.specs.Prelude.{◌≡◌, drop};
ghost use Rattle.facts.specs.Rests.{rest};
ghost use Rattle.std.specs.Iterator.{YieldsFirst, item_count};

use crate::source::Source;
use vocabulary::facts::Fact;

/// The facts of a source that are left, in the order of their places.
#[derive(Drop)]
pub struct Facts<'a, S> {
    source: &'a S,
    next: usize,
}

impl<'a, S: Source> Facts<'a, S> {
    /// All facts of a source.
    pub fn of(source: &'a S) -> Facts<'a, S>
        ensures { rest S.Source.facts result ≡ S.Source.facts source.now }
    {
        Facts { source, next: 0 }
    }

    /// The facts of a source from a place on.
    pub fn from_place(source: &'a S, place: usize) -> Facts<'a, S>
        ensures { rest S.Source.facts result ≡ drop place (S.Source.facts source.now) }
    {
        Facts {
            source,
            next: place,
        }
    }
}

impl<S: Source> Iterator for Facts<'_, S> {
    type Item = Fact;

    ghost next_gives = { YieldsFirst (rest S.Source.facts) };

    ghost remaining = { item_count (rest S.Source.facts) };

    fn next(&mut self) -> Option<Fact> {
        let fact = self.source.at(self.next)?;
        self.next += 1;
        Some(fact)
    }
}
