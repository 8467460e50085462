//! Answers scripts of calls on a site file.
//!
//! `site FILE..` reads each file as a script of its own, and standard input where no file is named.

#![tactic(auto)]

ghost use Rattle.script.specs.declared.offer.Offer.TheVariants.{Rules};
ghost use Rattle.std.specs.Prelude.{◌≡◌};

mod reading;

use script::offer::Offer;
use script::program::answer_all;

/// The calls that this program takes: those on rules alone.
fn offer() -> Offer
    ensures { result ≡ Rules }
{
    Offer::Rules
}

fn main(rt: HostRuntime) -> anyhow::Result<()> {
    answer_all(&rt, offer())
}

#[cfg(test)]
mod tests {
    use super::*;
    use script::script::run;
    use std::process::Abort;
    use std::test::Fail;

    // Runs a script with an error in it, and compares what it answers.
    fn answers(rt: &(impl Abort + AllocGlobal), text: &str, expected: &str) -> Result<(), Fail> {
        let report = run(rt.alloc(), text, offer())?;
        assert!(rt; report.failed);
        assert_eq!(rt; report.text.as_str(), expected);
        Ok(())
    }

    #[test]
    fn says_what_a_line_lacks(rt: HostRuntime) -> Result<(), Fail> {
        answers(
            &rt,
            "famly 0\nfamily\nfamily -1\nrule\nrule x apart 2\nrule 0 beside 2\nrule 0 within\nrule link\n\
             rule link 3\nrule link 3 apart 1x\nrule link 3 single 1\nseal 0",
            "famly 0 => error: line 1: expected `family`, `rule`, `seal` or `follows`\n\
             family => error: line 2: expected a number after `family`\n\
             family -1 => error: line 3: expected a number after `family`\n\
             rule => error: line 4: expected a code or `link` at the start of the rule\n\
             rule x apart 2 => error: line 5: expected a code or `link` at the start of the rule\n\
             rule 0 beside 2 => error: line 6: expected `within` or `apart` after the first code\n\
             rule 0 within => error: line 7: expected a second code after `within` or `apart`\n\
             rule link => error: line 8: expected a code after `link`\n\
             rule link 3 => error: line 9: expected `within`, `apart` or `single` after the code of the link\n\
             rule link 3 apart 1x => error: line 10: expected a second code after `within` or `apart`\n\
             rule link 3 single 1 => error: line 11: expected the end of the line after the call\n\
             seal 0 => error: line 12: expected the end of the line after the call\n",
        )
    }

    #[test]
    fn needs_a_draft(rt: HostRuntime) -> Result<(), Fail> {
        answers(
            &rt,
            "# no draft\n\n  rule 0 within 2  # too early\nseal\nfamily 2\nrule 0 within 2\n",
            "rule 0 within 2 => error: line 3: expected `family 0` or `family 1` first\n\
             seal => error: line 4: expected `family 0` or `family 1` first\n\
             family 2 => fault 1\n\
             rule 0 within 2 => error: line 6: expected `family 0` or `family 1` first\n",
        )
    }

    #[test]
    fn goes_on_after_an_error(rt: HostRuntime) -> Result<(), Fail> {
        answers(
            &rt,
            "family 0\nrule 0 apart 2\nrule 0 apart\nfollows 0 apart 2\nrule 0 apart 2\nseal\nrule 1 apart 2\nfollows 0 apart 2\nseal\nfamily 1\nseal\n",
            "family 0 => ok\n\
             rule 0 apart 2 => 1\n\
             rule 0 apart => error: line 3: expected a second code after `within` or `apart`\n\
             follows 0 apart 2 => error: line 4: the draft is not sealed, expected `seal` before `follows`\n\
             rule 0 apart 2 => 0\n\
             seal => closure 0-2\n\
             rule 1 apart 2 => error: line 7: the book is sealed, expected `family` before another rule\n\
             follows 0 apart 2 => yes\n\
             seal => error: line 9: the book is sealed, expected `family` before another seal\n\
             family 1 => ok\n\
             seal => closure\n",
        )
    }

    #[test]
    fn takes_no_call_on_facts(rt: HostRuntime) -> Result<(), Fail> {
        answers(
            &rt,
            "store list 128\nenter c5(7)\nwithdraw c5(7)\nlist\n",
            "store list 128 => error: line 1: expected `family`, `rule`, `seal` or `follows`\n\
             enter c5(7) => error: line 2: expected `family`, `rule`, `seal` or `follows`\n\
             withdraw c5(7) => error: line 3: expected `family`, `rule`, `seal` or `follows`\n\
             list => error: line 4: expected `family`, `rule`, `seal` or `follows`\n",
        )
    }
}
