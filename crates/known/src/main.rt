//! Asks questions whose rewritings are known, and prints them.

#![tactic(auto)]

mod asking;
mod lines;
mod samples;

use crate::samples::{lifts, orders, professors, refused};

fn main(rt: HostRuntime) -> anyhow::Result<()> {
    professors(&rt)?;
    lifts(&rt)?;
    orders(&rt)?;
    refused(&rt)
}
