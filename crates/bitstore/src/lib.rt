//! The store that keeps its facts as bits of a table, one for each fact that it can hold.

#![tactic(auto)]

pub mod layout;
pub mod pass;
mod scan;
pub mod store;
