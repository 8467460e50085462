//! Runs scripts that the test of the program itself cannot hold: some with mistakes, which end the program with status 1,
//! and some with thousands of lines. It prints what a line lacks and that the others go on, and where a store is full.

#![tactic(auto)]

use script::offer::Offer;
use script::script::run;
use std::alloc::{AllocError, Global};

fn main(rt: HostRuntime) -> anyhow::Result<()> {
    let heap = rt.alloc();
    for text in [
        "famly 0\nfamily\nfamily -1\nrule\nrule x apart 2\nrule 0 beside 2\nrule 0 within\nrule link\n\
         rule link 3\nrule link 3 apart 1x\nrule link 3 single 1\nseal 0\n",
        "store\nstore shelf 128\nstore list\nstore list many\nstore bits 64 64\nenter\nenter c5\nenter c5(\n\
         enter c5()\nenter c(7)\nenter d5(7)\nenter c5(7,8)\nenter l1(7)\nenter l1(7,8,9)\nenter l1(7,)\n\
         enter c5 (7)\nwithdraw\nwithdraw 7\nlist facts\n",
        "# no draft\n\n  rule 0 within 2  # too early\nseal\nfamily 2\nrule 0 within 2\nfollows 0 within 2\n",
        "# no store\nenter c5(7)\nwithdraw c5(7)\nlist\nstore list 127\nlist\nfamily 0\nenter c5(7)\nseal\nlist\n",
        "family 0\nrule 0 apart 2\nrule 0 apart\nfollows 0 apart 2\nrule 0 apart 2\nseal\nrule 1 apart 2\n\
         follows 0 apart 2\nseal\nfamily 1\nseal\n",
        "store list 128\nenter c5(7)\nenter c5\nstore bits\nfamily 0\nlist\nseal\nseal\nlist\n",
    ] {
        let report = run(heap, text, Offer::Facts)?;
        rt.print(report.text.as_str())?;
        println!(rt; "failed: {}\n", report.failed)?;
    }
    for store in ["store list 4096", "store bits 64", "store bits 120"] {
        rt.print(crowd(heap, store)?.as_str())?;
    }
    Ok(())
}

/// Fills a store with 4,096 facts and goes on: how many entries were taken, and the answers to the lines after them.
fn crowd(heap: Global, store: &str) -> Result<String, AllocError> {
    let mut text = String::from_str(heap, store)?;
    for a in 0..64u8 {
        for b in 0..64u8 {
            write!(text, "\nenter l0({a},{b})")?;
        }
    }
    text.push_str(
        "\nenter l1(0,0)\nenter c0(0)\nenter l0(63,63)\nenter l0(64,1024)\nwithdraw l1(0,0)\n\
         withdraw l0(0,1)\nenter l1(0,0)\nenter l0(0,1)\nwithdraw l1(0,0)\nenter l0(0,1)\n",
    )?;
    let report = run(heap, text.as_str(), Offer::Facts)?;
    let mut told = String::from_str(heap, store)?;
    for line in report.text.lines().skip(4097) {
        write!(told, "\n  {line}")?;
    }
    let entries = report.text.lines().take(4097);
    let taken = entries.filter(|line| line.ends_with("=> 1")).count();
    write!(told, "\n  taken before: {taken}\n")?;
    Ok(told)
}
