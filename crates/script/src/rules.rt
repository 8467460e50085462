//! Where the calls on rules go: there is no draft yet, or a draft, or the book that it was sealed into.

use crate::calls::Written;
use crate::expected::Expected;
use crate::report::{Answer, Refusal};
use book::book::Book;
use book::draft::Draft;
use vocabulary::rules::Rule;

/// What answers the calls on rules; a call that is not possible says what was expected first.
pub(crate) trait Rules {
    fn enter(&mut self, rule: Written) -> Result<Answer, Refusal>;

    fn follows(&self, rule: Written) -> Result<Answer, Refusal>;

    /// Whether there is a draft to seal.
    fn can_seal(&self) -> Result<(), Expected>;
}

/// No draft was opened.
#[derive(Drop)]
pub(crate) struct NoDraft;

impl Rules for NoDraft {
    fn enter(&mut self, _rule: Written) -> Result<Answer, Refusal> {
        Err(Refusal::Expected(Expected::Opening))
    }

    fn follows(&self, _rule: Written) -> Result<Answer, Refusal> {
        Err(Refusal::Expected(Expected::Opening))
    }

    fn can_seal(&self) -> Result<(), Expected> {
        Err(Expected::Opening)
    }
}

impl Rules for Draft<'_> {
    fn enter(&mut self, rule: Written) -> Result<Answer, Refusal> {
        let rule = Rule::try_from(rule)?;
        Ok(Answer::Changed(self.enter(rule)?))
    }

    fn follows(&self, _rule: Written) -> Result<Answer, Refusal> {
        Err(Refusal::Expected(Expected::Sealing))
    }

    fn can_seal(&self) -> Result<(), Expected> {
        Ok(())
    }
}

impl Rules for Book<'_> {
    fn enter(&mut self, _rule: Written) -> Result<Answer, Refusal> {
        Err(Refusal::Expected(Expected::OpeningForRule))
    }

    fn follows(&self, rule: Written) -> Result<Answer, Refusal> {
        let rule = Rule::try_from(rule)?;
        Ok(Answer::Follows(self.follows(rule)?))
    }

    fn can_seal(&self) -> Result<(), Expected> {
        Err(Expected::OpeningForSeal)
    }
}
