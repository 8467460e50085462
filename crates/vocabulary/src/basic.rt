//! Directed links and basic classes, and the codes by which tables and texts name them.

ghost use Rattle.std.specs.Prelude.{◌≡◌, ℕ, ◌<◌, ◌≤◌, Decides};
ghost use Rattle.std.proofs.Math.Nat.{le-add_right};
ghost use Rattle.vocabulary.specs.Codes.{turn, directed_code, directed_below, basic_code, basic_below};
ghost use Rattle.vocabulary.specs.Ranges.{DirectedFits, BasicFits};
ghost use Rattle.vocabulary.specs.Refusals.{Decoded, Encoded};

use crate::faults::Fault;
use crate::numbers::{Class, Link};

/// What tables and texts name by a number.
pub trait Coded: Copy {
    /// Which values are in range.
    ghost fitting: { Self → Type 0 };

    /// The number of a value.
    ghost number: { Self → ℕ };

    /// How many codes there are.
    ghost codes: { ℕ };

    /// Whether the numbers in the value are in range.
    fn fits(self) -> bool
        ensures { Decides result (fitting self) };

    /// The row and column of a table, which for a value in range is its code.
    fn index(self) -> usize
        ensures { result ≡ number self };

    ghost below: { (x : Self) → fitting x → number x < codes };

    /// A code is a byte.
    ghost small: { codes ≤ 256 };

    /// The code, or the range fault.
    final fn code(self) -> Result<u8, Fault>
        ensures { Encoded fitting number self result }
    {
        if self.fits() {
            Ok(self.index() as u8)
        } else {
            Err(Fault::Range)
        }
    }
}

/// A link in one of its two directions.
#[derive(Clone, Copy, PartialEq, Eq)]
pub enum Directed {
    Forward(Link),
    Backward(Link),
}

impl Directed {
    /// The link in the other direction.
    pub fn turn(self) -> Directed
        ensures { result ≡ turn self }
    {
        match self {
            Directed::Forward(l) => Directed::Backward(l),
            Directed::Backward(l) => Directed::Forward(l),
        }
    }
}

/// Codes 0 to 63.
impl Coded for Directed {
    ghost fitting = { DirectedFits };

    ghost number = { directed_code };

    ghost codes = { 64 };

    ghost below = { directed_below };

    ghost small = { le-add_right 64 192 };

    fn fits(self) -> bool {
        match self {
            Directed::Forward(l) => l.fits(),
            Directed::Backward(l) => l.fits(),
        }
    }

    fn index(self) -> usize {
        match self {
            Directed::Forward(l) => l.0 as usize,
            Directed::Backward(l) => 32 + l.0 as usize,
        }
    }
}

/// The directed link of a code, or the range fault.
impl TryFrom<u8> for Directed {
    type Error = Fault;

    ghost try_from_gives = { Decoded DirectedFits directed_code 64 };

    fn try_from(code: u8) -> Result<Directed, Fault> {
        match code {
            0..=31 => Ok(Directed::Forward(Link(code))),
            32..=63 => Ok(Directed::Backward(Link(code - 32))),
            _ => Err(Fault::Range),
        }
    }
}

/// A class, or the things where a directed link starts.
#[derive(Clone, Copy, PartialEq, Eq)]
pub enum Basic {
    Named(Class),
    Start(Directed),
}

/// Codes 0 to 127.
impl Coded for Basic {
    ghost fitting = { BasicFits };

    ghost number = { basic_code };

    ghost codes = { 128 };

    ghost below = { basic_below };

    ghost small = { le-add_right 128 128 };

    fn fits(self) -> bool {
        match self {
            Basic::Named(c) => c.fits(),
            Basic::Start(d) => d.fits(),
        }
    }

    fn index(self) -> usize {
        match self {
            Basic::Named(c) => c.0 as usize,
            Basic::Start(d) => 64 + d.index(),
        }
    }
}

/// The basic class of a code, or the range fault.
impl TryFrom<u8> for Basic {
    type Error = Fault;

    ghost try_from_gives = { Decoded BasicFits basic_code 128 };

    fn try_from(code: u8) -> Result<Basic, Fault> {
        if code < 64 {
            return Ok(Basic::Named(Class(code)));
        }
        Ok(Basic::Start(Directed::try_from(code - 64)?))
    }
}
