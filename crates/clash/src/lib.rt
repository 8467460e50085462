//! The check of a file: whether a sealed book and a source of facts contradict one another.

#![tactic(auto)]

pub mod check;
pub mod pairs;
