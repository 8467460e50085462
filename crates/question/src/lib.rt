//! Questions and their rewritings by the rules of a sealed book.

#![tactic(auto)]

pub mod asked;
mod changes;
mod counts;
mod lists;
mod merging;
mod opening;
mod order;
mod parts;
mod prints;
pub mod record;
pub mod records;
mod rewriting;
mod ruling;
mod short;
mod table;
mod tidying;
