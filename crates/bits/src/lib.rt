//! Bits in a lent table of words, and symmetric relations on small numbers that such a table holds.

#![tactic(auto)]

pub mod relation;
pub mod table;
