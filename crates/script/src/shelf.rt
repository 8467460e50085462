//! Where the calls on facts go: a store of any make, or none yet.

use crate::expected::Expected;
use crate::report::{Answer, Refusal};
use crate::stock::listed;
use facts::source::Store;
use std::alloc::Global;
use vocabulary::facts::Fact;

/// What answers the calls on facts; a call that is not possible says what was expected first.
pub(crate) trait Shelf {
    fn enter(&mut self, fact: Fact) -> Result<Answer, Refusal>;

    fn withdraw(&mut self, fact: Fact) -> Result<Answer, Refusal>;

    fn list(&self, heap: Global) -> Result<Answer, Refusal>;
}

/// No store was made.
#[derive(Drop)]
pub(crate) struct NoStore;

impl Shelf for NoStore {
    fn enter(&mut self, _fact: Fact) -> Result<Answer, Refusal> {
        Err(Refusal::Expected(Expected::Making))
    }

    fn withdraw(&mut self, _fact: Fact) -> Result<Answer, Refusal> {
        Err(Refusal::Expected(Expected::Making))
    }

    fn list(&self, _heap: Global) -> Result<Answer, Refusal> {
        Err(Refusal::Expected(Expected::Making))
    }
}

/// A store of any make, in a type of its own, since `NoStore` could be one too.
#[derive(Drop)]
pub(crate) struct Held<S> {
    pub(crate) store: S,
}

impl<S: Store> Shelf for Held<S> {
    fn enter(&mut self, fact: Fact) -> Result<Answer, Refusal> {
        Ok(Answer::Changed(self.store.enter(fact)?))
    }

    fn withdraw(&mut self, fact: Fact) -> Result<Answer, Refusal> {
        Ok(Answer::Changed(self.store.withdraw(fact)?))
    }

    fn list(&self, heap: Global) -> Result<Answer, Refusal> {
        Ok(Answer::Facts(listed(heap, &self.store)?))
    }
}
