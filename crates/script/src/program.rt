//! What the programs do with their arguments.

use crate::offer::Offer;
use crate::script::run;
use anyhow::anyhow;
use std::rt::{Env, Files};
use std::{env, fs, io};

/// Answers the script in each file that the arguments name, or the one on standard input where they name none, and fails
/// where an error was printed. No clause can say what is read and printed.
pub fn answer_all<R: Env + Files + Input + Print + AllocGlobal>(
    rt: &R,
    offer: Offer,
) -> anyhow::Result<()> {
    let args = env::args(rt)?;
    let mut failed = false;
    if args.len() <= 1 {
        let text = io::read_to_string(rt.alloc(), rt.reader());
        failed = answer(rt, offer, text, "standard input")?;
    }
    for file in args.skip(1) {
        let text = fs::read_to_string(rt, file.as_str());
        failed |= answer(rt, offer, text, file.as_str())?;
    }
    if failed {
        return Err(anyhow!("a line or a file has no answer"));
    }
    Ok(())
}

/// Prints the answers to a script, and says whether there was an error among them.
fn answer<R: Print + AllocGlobal>(
    rt: &R,
    offer: Offer,
    text: io::Result<String>,
    file: &str,
) -> anyhow::Result<bool> {
    let Ok(text) = text else {
        println!(rt; "error: cannot read {file}")?;
        return Ok(true);
    };
    let report = run(rt.alloc(), text.as_str(), offer)?;
    rt.print(report.text.as_str())?;
    Ok(report.failed)
}
