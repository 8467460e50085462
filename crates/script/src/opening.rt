//! What a draft opens with.

ghost use Rattle.std.specs.Prelude.{◌≡◌, vec_len};

use crate::report::Refusal;
use book::pass::Pass;
use std::alloc::Global;
use vocabulary::basic::Directed;
use vocabulary::numbers::Link;
use vocabulary::rules::{Family, Rule};

/// The tables of a draft, and the pass that they gave.
#[derive(Drop)]
pub(crate) struct Opening {
    pub(crate) pass: Pass,
    pub(crate) rules: Vec<Rule>,
    pub(crate) basic: Vec<u64>,
    pub(crate) links: Vec<u64>,
    ghost places: { vec_len rules ≡ 256 },
    ghost basics: { vec_len basic ≡ 256 },
    ghost linked: { vec_len links ≡ 64 },
}

impl Opening {
    /// The opening of a draft of the family with this code, if one has it.
    pub(crate) fn of(heap: Global, code: u8) -> Result<Opening, Refusal> {
        // A code of no family is refused before any table is made.
        Family::try_from(code)?;
        let rules = vec![in heap; Rule::Single(Directed::Forward(Link(0))); 256]?;
        let basic = vec![in heap; u64::MAX; 256]?;
        let links = vec![in heap; u64::MAX; 64]?;
        let pass = Pass::test(code, &rules, &basic, &links)?;
        Ok(Opening {
            pass,
            rules,
            basic,
            links,
        })
    }
}
