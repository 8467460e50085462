//! The test that a table passes before a list store is made over it.

ghost use Rattle.facts.specs.Passes.{ListTested};
ghost use Rattle.std.specs.Prelude.{length};

use vocabulary::facts::Fact;
use vocabulary::faults::Fault;

/// What the test gives, and a list store is made with; there is no other way to one.
/// Each kind of table has a pass of its own: they are tested by different rules and hold different things.
#[derive(Drop)]
pub struct ListPass {
    places: usize,
}

impl ListPass {
    /// The pass for a table of 128 to 4,096 places, or the fault. The table is only looked at.
    pub fn test(table: &[Fact]) -> Result<ListPass, Fault>
        ensures { ListTested (length table.now) result }
    {
        let places = table.len();
        if places < 128 || places > 4096 {
            return Err(Fault::Length);
        }
        Ok(ListPass { places })
    }
}
