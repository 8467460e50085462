//! The store of a script between two sections: how it is made, and what it lists.

ghost use Rattle.script.specs.Makings.{Possible, table_of_list, table_of_bits};
ghost use Rattle.std.specs.Prelude.{◌≡◌, IfOk, vec_len};

use crate::calls::Making;
use crate::report::Refusal;
use bitstore::pass::BitPass;
use facts::each::Facts;
use facts::pass::ListPass;
use facts::source::{Source, Store};
use std::alloc::{AllocError, Global};
use vocabulary::facts::Fact;
use vocabulary::numbers::{Class, Name};

/// A store borrows its table, so it stands within one function; between two such functions its facts are kept here.
#[derive(Drop)]
pub(crate) struct Stock {
    pub(crate) making: Making,
    pub(crate) facts: Vec<Fact>,
    ghost possible: { Possible making },
}

impl Stock {
    /// A store of this making, with no facts, if one can be made.
    pub(crate) fn of(heap: Global, making: Making) -> Result<Stock, Refusal> {
        try_out(heap, making)?;
        Ok(Stock {
            making,
            facts: Vec::new(heap),
        })
    }

    /// Enters the kept facts in a store that was made anew, in the order in which they were listed. One of the same make took
    /// them so before.
    pub(crate) fn restore<S: Store>(&self, store: &mut S) {
        for fact in self.facts.as_slice() {
            let _ = store.enter(*fact);
        }
    }
}

/// Refuses what no store can be made with.
fn try_out(heap: Global, making: Making) -> Result<(), Refusal>
    ensures { IfOk result (λ _. Possible making) }
{
    match making {
        Making::List(count) => drop(ListPass::test(&places(heap, count)?)?),
        Making::Bits(names) => drop(BitPass::test(names, &bytes(heap, names)?)?),
    }
    Ok(())
}

/// The facts of a store, in its order.
pub(crate) fn listed<S: Source>(heap: Global, store: &S) -> Result<Vec<Fact>, AllocError>
    ensures { IfOk result (λ list. list.items ≡ S.facts store.now) }
{
    Facts::of(store).collect(heap)
}

/// A table of so many places, or of one more than any store may have where that is less.
pub(crate) fn places(heap: Global, count: usize) -> Result<Vec<Fact>, AllocError>
    ensures { IfOk result (λ table. vec_len table ≡ table_of_list count) }
{
    vec![in heap; Fact::InClass(Class(0), Name(0)); count.min(4097)]
}

/// A table for names below this number, or an empty one where no store may have it.
pub(crate) fn bytes(heap: Global, names: usize) -> Result<Vec<u8>, AllocError>
    ensures { IfOk result (λ table. vec_len table ≡ table_of_bits names) }
{
    let size = if names > 120 {
        0
    } else {
        8 * names + 4 * (names * names)
    };
    vec![in heap; 255u8; size]
}
