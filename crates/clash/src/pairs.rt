//! Whether two facts clash with the rules of a book.

ghost use Rattle.clash.specs.Contrary.{Contrary, Crossed, Denied, there, turned};
ghost use Rattle.std.specs.Prelude.{◌≡◌, Decides};
ghost use Rattle.theory.specs.Clashes.{Clash};
ghost use Rattle.theory.specs.Closure.{Excluded, classes};
ghost use Rattle.vocabulary.specs.declared.rules.Rule.TheVariants.{Single};
ghost use mathlib.Core.List.{Memᴰ};

use book::book::Book;
use vocabulary::basic::{Basic, Directed};
use vocabulary::facts::Fact;
use vocabulary::numbers::{Link, Name};
use vocabulary::rules::Rule;

/// A directed link from one name to another.
#[derive(Clone, Copy)]
struct Hop {
    along: Directed,
    from: Name,
    to: Name,
}

impl Hop {
    /// A link from its first name to its second.
    fn there(l: Link, a: Name, b: Name) -> Hop
        ensures { result ≡ there l a b }
    {
        Hop {
            along: Directed::Forward(l),
            from: a,
            to: b,
        }
    }

    /// The same from the other name.
    fn turned(self) -> Hop
        ensures { result ≡ turned self }
    {
        Hop {
            along: self.along.turn(),
            from: self.to,
            to: self.from,
        }
    }
}

/// Whether two facts clash; a fact that clashes alone clashes with itself.
pub fn clashing(book: &Book, f: Fact, g: Fact) -> bool
    ensures { Decides result (Clash book.now.family book.now.rules.now f g) }
{
    match f {
        Fact::InClass(c, a) => contrary(book, Basic::Named(c), a, g),
        Fact::Linked(l, a, b) => {
            let hop = Hop::there(l, a, b);
            denied(book, hop, g) | denied(book, hop.turned(), g)
        }
    }
}

/// Whether a fact puts the name into a basic class that excludes this one.
fn contrary(book: &Book, class: Basic, name: Name, fact: Fact) -> bool
    ensures { Decides result (Contrary book.now.family book.now.rules.now class name fact) }
{
    match fact {
        Fact::InClass(c, a) => at_odds(book, class, name, Basic::Named(c), a),
        Fact::Linked(l, a, b) => {
            at_odds(book, class, name, Basic::Start(Directed::Forward(l)), a)
                | at_odds(book, class, name, Basic::Start(Directed::Backward(l)), b)
        }
    }
}

/// Whether one name is in two basic classes that exclude one another.
fn at_odds(book: &Book, b: Basic, x: Name, c: Basic, y: Name) -> bool
    ensures { Decides result ((x ≡ y) × Excluded book.now.family book.now.rules.now (classes b c)) }
{
    x == y && book.classes_apart(b, c)
}

/// Whether a fact contradicts a link between two names.
fn denied(book: &Book, hop: Hop, fact: Fact) -> bool
    ensures { Decides result (Denied book.now.family book.now.rules.now hop fact) }
{
    let class = contrary(book, Basic::Start(hop.along), hop.from, fact);
    match fact {
        Fact::InClass(_, _) => class,
        Fact::Linked(l, a, b) => {
            let said = Hop::there(l, a, b);
            let there = crossed(book, hop, said);
            let back = crossed(book, hop, said.turned());
            class | (there | back)
        }
    }
}

/// Whether two links exclude one another across the same names, or lead from one name to two partners along a single link.
fn crossed(book: &Book, p: Hop, q: Hop) -> bool
    ensures { Decides result (Crossed book.now.family book.now.rules.now p q) }
{
    if p.from != q.from {
        return false;
    }
    if p.to == q.to {
        return book.links_apart(p.along, q.along);
    }
    p.along == q.along && single(book, p.along)
}

/// Whether the book has the rule that nothing has two partners along the link.
fn single(book: &Book, d: Directed) -> bool
    ensures { Decides result (Memᴰ (Single d) book.now.rules.now) }
{
    book.rules().contains(&Rule::Single(d))
}
