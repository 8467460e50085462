//! The words of a site file: numbers of classes, links and names, directed links, basic classes, rules, facts and faults.

#![tactic(auto)]

pub mod basic;
pub mod effects;
pub mod facts;
pub mod faults;
pub mod numbers;
pub mod questions;
pub mod rules;
