//! Sources and stores of facts, and the store that keeps its facts in a list.

#![tactic(auto)]

pub mod each;
pub mod list;
pub mod pass;
pub mod source;
