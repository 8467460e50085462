//! The test that a family code and three tables pass before a draft is opened over them.

ghost use Rattle.book.specs.Passes.{Tested};
ghost use Rattle.std.specs.Prelude.{length};

use vocabulary::faults::Fault;
use vocabulary::rules::{Family, Rule};

/// What the test gives, and a draft is opened with; there is no other way to one. Each kind of table has a pass of its own.
#[derive(Drop)]
pub struct Pass {
    pub(crate) family: Family,
}

impl Pass {
    /// The pass, or the fault: a family code that no family has goes before a table of another length.
    ///
    /// A number stands for the family here since it comes from outside and may be wrong; the tables are three parameters here and in
    /// `Draft::open`, since the test only looks at them and opening lends them.
    pub fn test(code: u8, rules: &[Rule], basic: &[u64], linked: &[u64]) -> Result<Pass, Fault>
        ensures { Tested code (length rules.now) (length basic.now) (length linked.now) result }
    {
        let family = Family::try_from(code)?;
        if rules.len() != 256 || basic.len() != 256 || linked.len() != 64 {
            return Err(Fault::Length);
        }
        Ok(Pass { family })
    }
}
