//! Answers scripts of calls on a site file.
//!
//! `site_facts FILE..` reads each file as a script of its own, and standard input where no file is named.

#![tactic(auto)]

use script::offer::Offer;
use script::program::answer_all;

fn main(rt: HostRuntime) -> anyhow::Result<()> {
    answer_all(&rt, Offer::Facts)
}
