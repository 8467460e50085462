//! The pairs that a sealed book keeps apart.

ghost use Rattle.std.specs.Prelude.{Decides};
ghost use Rattle.script.specs.Forms.{Least, NotAfter};

use book::book::Book;
use std::fmt;
use vocabulary::basic::{Basic, Coded, Directed};
use vocabulary::faults::Fault;

/// The closure of a book as it is answered: the pairs of basic classes, and then those of links.
#[derive(Clone, Copy)]
pub(crate) struct Closure<'a>(pub(crate) Book<'a>);

impl fmt::Display for Closure<'_> {
    fn fmt<W: fmt::Write>(&self, f: &mut fmt::Formatter<W>) -> fmt::Result {
        let book = self.0;
        f.write_str("closure")?;
        pairs("", |b: Basic, c: Basic| book.classes_apart(b, c), f)?;
        pairs(
            "l",
            |d: Directed, e: Directed| is_least(d, e) && book.links_apart(d, e),
            f,
        )
    }
}

/// Writes the pairs that are kept apart by their codes, which go up from 0: the smaller first, each behind a blank and a sign.
fn pairs<T: Coded + TryFrom<u8, Error = Fault>, F: Fn(T, T) -> bool, W: fmt::Write>(
    sign: &str,
    apart: F,
    f: &mut fmt::Formatter<W>,
) -> fmt::Result
    requires { F.IsAlwaysCallable apart }
{
    for a in 0..=255u8 {
        let Ok(first) = T::try_from(a) else {
            break;
        };
        for b in a..=255u8 {
            let Ok(second) = T::try_from(b) else {
                break;
            };
            if apart(first, second) {
                write!(f, " {sign}{a}-{b}")?;
            }
        }
    }
    Ok(())
}

/// Whether a pair of links is the least of the forms that mean the same: either order, and both links turned round.
fn is_least(d: Directed, e: Directed) -> bool
    ensures { Decides result (Least d e) }
{
    let (a, b) = (d.index(), e.index());
    let (x, y) = (d.turn().index(), e.turn().index());
    not_after(a, b, b, a) && not_after(a, b, x, y) && not_after(a, b, y, x)
}

/// Whether the pair of `a` and `b` comes before that of `c` and `d`, or is the same.
fn not_after(a: usize, b: usize, c: usize, d: usize) -> bool
    ensures { Decides result (NotAfter a b c d) }
{
    (a, b) <= (c, d)
}
