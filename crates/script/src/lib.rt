//! Scripts of calls on a site file, and their answers.

#![tactic(auto)]

pub mod calls;
mod closure;
mod expected;
mod notation;
pub mod offer;
mod opening;
pub mod program;
pub mod report;
mod rules;
pub mod script;
mod session;
mod shelf;
mod stock;
mod words;
