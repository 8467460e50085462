//! A question as tables hold it.

ghost use Rattle.question.specs.Fingerprints.{fingerprint};
ghost use Rattle.question.specs.Parts.{of_parts};
ghost use Rattle.std.specs.Prelude.{◌≡◌};

use crate::parts::Parts;

/// The parts of a question, with their fingerprint, by which two different ones are mostly told apart at once. It has no `Model`, as a `Short` has none.
#[derive(Clone, Copy)]
pub struct Record {
    pub(crate) print: u32,
    pub(crate) parts: Parts,
    ghost tied: { print ≡ fingerprint (of_parts parts) },
}
