//! The test that a table of bytes passes before a bit store is made over it.

ghost use Rattle.bitstore.specs.Passes.{BitTested};
ghost use Rattle.std.specs.Prelude.{length};

use vocabulary::faults::Fault;

/// What the test gives, and a bit store is made with; there is no other way to one. Each kind of table has a pass of its own.
#[derive(Drop)]
pub struct BitPass {
    pub(crate) names: usize,
}

impl BitPass {
    /// The pass for names below a multiple of 8 from 64 to 120 and a table of just the bytes that they need, or the fault.
    /// The table is only looked at.
    pub fn test(names: usize, table: &[u8]) -> Result<BitPass, Fault>
        ensures { BitTested names (length table.now) result }
    {
        if names < 64 || names > 120 || names % 8 != 0 {
            return Err(Fault::Length);
        }
        if table.len() != 8 * names + 4 * (names * names) {
            return Err(Fault::Length);
        }
        Ok(BitPass { names })
    }
}
