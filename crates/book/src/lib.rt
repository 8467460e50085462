//! A book of rules: a draft takes them, sealing finds the exclusion closure, and a sealed book answers.

#![tactic(auto)]

pub mod book;
mod closure;
pub mod draft;
pub mod pass;
mod ranged;
mod reach;
