//! Which calls a program takes.

/// The calls that a program takes; to it any other is unknown.
#[derive(Clone, Copy)]
pub enum Offer {
    /// Those on rules.
    Rules,
    /// Those on rules and those on facts.
    Facts,
}
