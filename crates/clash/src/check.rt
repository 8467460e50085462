//! The check of a sealed book with a source of facts.

ghost use Rattle.clash.specs.Searches.{AllCalm, FirstAlone, FirstPair, NoneAlone};
ghost use Rattle.clash.specs.Verdicts.{Checked, Settled};
ghost use Rattle.std.specs.Option.{MatchOption};

use crate::pairs::clashing;
use book::book::Book;
use facts::each::Facts;
use facts::source::Source;
use vocabulary::facts::{Clash, Fact};

/// The one or two facts that are to blame, if the book's rules and the source's facts cannot be true together.
pub fn check<S: Source>(book: &Book, source: &S) -> Option<Clash>
    ensures checked { Checked book.now.rules.now (S.Source.facts source.now) result }
    ensures settled { Settled book.now.rules.now (S.Source.facts source.now) result }
{
    if let Some(f) = first_alone(book, source) {
        return Some(Clash::One(f));
    }
    let (f, g) = first_pair(book, source)?;
    Some(Clash::Two(f, g))
}

// Book and source stay two parameters of two searches: a struct of them would be taken apart again in each.

/// The first fact by place that clashes alone.
fn first_alone<S: Source>(book: &Book, source: &S) -> Option<Fact>
    ensures { MatchOption result (NoneAlone book.now.family book.now.rules.now (S.Source.facts source.now)) (FirstAlone book.now.family book.now.rules.now (S.Source.facts source.now)) }
{
    for f in Facts::of(source) {
        if clashing(book, f, f) {
            return Some(f);
        }
    }
    None
}

/// The first two facts that clash: no pair with an earlier fact does, nor the first of them with a fact between the two.
fn first_pair<S: Source>(book: &Book, source: &S) -> Option<(Fact, Fact)>
    ensures { MatchOption result (AllCalm book.now.family book.now.rules.now (S.Source.facts source.now)) (λ p. FirstPair book.now.family book.now.rules.now (S.Source.facts source.now) p.0 p.1) }
{
    let mut blamed = None;
    'outer: for (i, f) in Facts::of(source).enumerate() {
        for g in Facts::from_place(source, i + 1) {
            if clashing(book, f, g) {
                blamed = Some((f, g));
                break 'outer;
            }
        }
    }
    blamed
}
