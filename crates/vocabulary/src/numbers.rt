//! Numbers of classes, links and names, each of a type of its own, so that none can be taken for another.
//!
//! A value may be out of range: a call that is given one refuses it.
//! Each type has a test of one line: a trait for the three would be longer, and no caller takes any of them.

ghost use Rattle.std.specs.Prelude.{Decides};
ghost use Rattle.vocabulary.specs.Ranges.{ClassFits, LinkFits, NameFits};

/// A class, numbered 0 to 63.
#[derive(Clone, Copy, PartialEq, Eq)]
pub struct Class(pub u8);

impl Class {
    /// Whether the number is in range.
    pub fn fits(self) -> bool
        ensures { Decides result (ClassFits self) }
    {
        self.0 < 64
    }
}

/// A link, numbered 0 to 31.
#[derive(Clone, Copy, PartialEq, Eq)]
pub struct Link(pub u8);

impl Link {
    /// Whether the number is in range.
    pub fn fits(self) -> bool
        ensures { Decides result (LinkFits self) }
    {
        self.0 < 32
    }
}

/// A name, numbered 0 to 1,023.
#[derive(Clone, Copy, PartialEq, Eq)]
pub struct Name(pub u16);

impl Name {
    /// Whether the number is in range.
    pub fn fits(self) -> bool
        ensures { Decides result (NameFits self) }
    {
        self.0 < 1024
    }
}
