//! The bit of a fact, and the fact of a bit, for names below `names`.

ghost use Rattle.std.specs.Prelude.{◌≡◌, ◌<◌, ◌≤◌};
ghost use Rattle.bitstore.specs.Layout.{ListingAscends, Located, bits, fact_of};

use vocabulary::facts::Fact;
use vocabulary::numbers::{Class, Link, Name};

/// The bit of a fact, if there is one.
pub(crate) fn bit_of(fact: Fact, names: usize) -> Option<usize>
    requires { names ≤ 120 }
    ensures { Located names fact result }
{
    match fact {
        Fact::InClass(c, a) => {
            let fits = c.fits() && (a.0 as usize) < names;
            fits.then_some(c.0 as usize * names + a.0 as usize)
        }
        Fact::Linked(l, a, b) => {
            let fits = l.fits() && (a.0 as usize) < names && (b.0 as usize) < names;
            let row = l.0 as usize * names + a.0 as usize;
            fits.then_some(64 * names + (row * names + b.0 as usize))
        }
    }
}

/// The fact of a bit.
pub(crate) fn fact_at(bit: usize, names: usize) -> Fact
    requires { (bit < bits names) × ((0 < names) × (names ≤ 1024)) }
    ensures { result ≡ fact_of names bit }
{
    let classes = 64 * names;
    if bit < classes {
        return Fact::InClass(Class((bit / names) as u8), Name((bit % names) as u16));
    }
    let rest = bit - classes;
    let row = rest / names;
    Fact::Linked(
        Link((row / names) as u8),
        Name((row % names) as u16),
        Name((rest % names) as u16),
    )
}

/// A bit store lists class facts first, then link facts, each kind ascending by its numbers.
pub fn listing_ascends() -> bool
    ensures { ListingAscends }
{
    true
}
