//! What is printed: a line for each call, with its answer.

ghost use Rattle.script.specs.declared.report.Refusal.TheVariants as refused;
ghost use Rattle.std.specs.Prelude.{◌≡◌};

use crate::expected::Expected;
use crate::notation::Shown;
use crate::offer::Offer;
use std::alloc::{AllocError, Global};
use std::fmt;
use vocabulary::effects::Effect;
use vocabulary::facts::Fact;
use vocabulary::faults::Fault;

/// A line of a script that holds a call.
#[derive(Clone, Copy)]
pub(crate) struct Line<'a> {
    /// Counted from 1 in each script.
    pub(crate) number: usize,
    /// The text, without comment and outer blanks.
    pub(crate) call: &'a str,
}

/// What a call answers.
#[derive(Drop)]
pub(crate) enum Answer {
    Done,
    Changed(Effect),
    Follows(bool),
    Facts(Vec<Fact>),
}

impl fmt::Display for Answer {
    fn fmt<W: fmt::Write>(&self, f: &mut fmt::Formatter<W>) -> fmt::Result {
        match self {
            Answer::Done => f.write_str("ok"),
            Answer::Changed(effect) => write!(f, "{}", u8::from(*effect)),
            Answer::Follows(true) => f.write_str("yes"),
            Answer::Follows(false) => f.write_str("no"),
            Answer::Facts(facts) => {
                f.write_str("facts")?;
                for fact in facts {
                    write!(f, " {}", Shown(*fact))?;
                }
                Ok(())
            }
        }
    }
}

/// Why a call has no answer.
#[derive(Drop)]
pub(crate) enum Refusal {
    /// The book or the store refuses it.
    Fault(Fault),
    /// The line lacks this, or the call is not possible yet.
    Expected(Expected),
    /// There is no memory for it.
    Memory(AllocError),
}

impl From<Fault> for Refusal {
    ghost from_gives = { λ fault refusal. refusal ≡ refused.Fault fault };

    fn from(fault: Fault) -> Refusal {
        Refusal::Fault(fault)
    }
}

impl From<Expected> for Refusal {
    ghost from_gives = { λ expected refusal. refusal ≡ refused.Expected expected };

    fn from(expected: Expected) -> Refusal {
        Refusal::Expected(expected)
    }
}

impl From<AllocError> for Refusal {
    ghost from_gives = { λ error refusal. refusal ≡ refused.Memory error };

    fn from(error: AllocError) -> Refusal {
        Refusal::Memory(error)
    }
}

/// The answers to the lines of a script.
#[derive(Drop)]
pub struct Report {
    /// The calls that were on offer.
    pub offer: Offer,
    pub text: String,
    /// Whether a line had no answer but an error. A flag of its own: the text is printed either way, and this is the program's status.
    pub failed: bool,
}

impl Report {
    pub(crate) fn new(heap: Global, offer: Offer) -> Report
        ensures { result.offer ≡ offer }
    {
        Report {
            offer,
            text: String::new(heap),
            failed: false,
        }
    }

    /// Writes the answer to a line.
    pub(crate) fn answer(
        &mut self,
        line: Line,
        answer: &impl fmt::Display,
    ) -> Result<(), AllocError>
        ensures { self.new.offer ≡ self.old.offer }
    {
        writeln!(self.text, "{} => {answer}", line.call)
    }

    /// Writes why a line has no answer, unless memory ran out.
    pub(crate) fn refuse(&mut self, line: Line, refusal: Refusal) -> Result<(), AllocError>
        ensures { self.new.offer ≡ self.old.offer }
    {
        let Line { number, call } = line;
        match refusal {
            Refusal::Fault(fault) => writeln!(self.text, "{call} => fault {}", u8::from(fault)),
            Refusal::Expected(expected) => {
                self.failed = true;
                writeln!(self.text, "{call} => error: line {number}: {expected}")
            }
            Refusal::Memory(error) => Err(error),
        }
    }
}
