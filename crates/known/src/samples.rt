//! The books, and the questions whose rewritings are known.

use crate::asking::ask;
use question::asked::{AskedAtom, AskedTerm, Question};
use vocabulary::basic::{Basic, Directed};
use vocabulary::numbers::{Class, Link, Name};
use vocabulary::rules::Rule;

fn class(n: u8) -> Basic {
    Basic::Named(Class(n))
}

fn start(l: u8) -> Basic {
    Basic::Start(Directed::Forward(Link(l)))
}

fn end(l: u8) -> Basic {
    Basic::Start(Directed::Backward(Link(l)))
}

fn in_class(c: u8, n: u8) -> AskedAtom {
    AskedAtom::InClass(Class(c), AskedTerm::Variable(n))
}

fn linked(l: u8, m: u8, n: u8) -> AskedAtom {
    AskedAtom::Linked(Link(l), AskedTerm::Variable(m), AskedTerm::Variable(n))
}

/// Professors (0) teach (link 0), students (1) have a tutor (link 1), who is taught is a student, and a tutor is a professor.
pub(crate) fn professors(rt: &(impl Print + AllocGlobal)) -> anyhow::Result<()> {
    println!(rt; "professors and students")?;
    let rules = [
        Rule::Within(class(0), start(0)),
        Rule::Within(class(1), start(1)),
        Rule::Within(end(0), class(1)),
        Rule::Within(end(1), class(0)),
        Rule::Apart(class(0), class(1)),
        Rule::LinkWithin(Directed::Backward(Link(1)), Directed::Forward(Link(0))),
    ];
    let taught = Question {
        head: &[0],
        atoms: &[linked(0, 0, 1), linked(1, 1, 2)],
    };
    ask(rt, &rules[0..5], taught, 64)?;
    ask(rt, &rules[0..5], taught, 6)?;
    ask(rt, &rules[0..5], taught, 5)?;
    ask(rt, &rules[0..5], taught, 0)?;
    let students = Question {
        head: &[0],
        atoms: &[in_class(1, 0)],
    };
    ask(rt, &rules, students, 3)
}

/// Phones (0) are on a line (link 1, to class 2), and lines are answered (link 2) by a centre (4); link 3 is the main line.
pub(crate) fn lifts(rt: &(impl Print + AllocGlobal)) -> anyhow::Result<()> {
    println!(rt; "lift phones")?;
    let rules = [
        Rule::Within(class(0), start(1)),
        Rule::Within(end(1), class(2)),
        Rule::Within(class(2), start(2)),
        Rule::Within(end(2), class(4)),
        Rule::Apart(class(0), class(2)),
        Rule::LinkWithin(Directed::Forward(Link(3)), Directed::Forward(Link(1))),
    ];
    let on_a_line = Question {
        head: &[0],
        atoms: &[linked(1, 0, 1)],
    };
    ask(rt, &rules, on_a_line, 3)?;
    let some_centre = Question {
        head: &[],
        atoms: &[in_class(4, 1)],
    };
    ask(rt, &rules, some_centre, 6)?;
    let answered = Question {
        head: &[0],
        atoms: &[linked(1, 0, 1), in_class(2, 1), linked(2, 1, 2)],
    };
    ask(rt, &rules, answered, 23)?;
    let one_line = Question {
        head: &[0, 1],
        atoms: &[linked(1, 0, 2), linked(1, 1, 2)],
    };
    ask(rt, &rules, one_line, 7)?;
    let named = Question {
        head: &[],
        atoms: &[AskedAtom::Linked(Link(1), AskedTerm::Named(Name(7)), AskedTerm::Variable(0))],
    };
    ask(rt, &rules, named, 8)
}

/// The order of the atoms counts.
pub(crate) fn orders(rt: &(impl Print + AllocGlobal)) -> anyhow::Result<()> {
    println!(rt; "orders")?;
    let rules = [
        Rule::Within(class(2), class(0)),
        Rule::Within(class(3), class(0)),
        Rule::Within(class(2), class(1)),
        Rule::Within(class(3), class(1)),
    ];
    let both = Question {
        head: &[0],
        atoms: &[in_class(0, 0), in_class(1, 0)],
    };
    ask(rt, &rules, both, 9)
}

/// Questions that are refused, each for the smallest of its faults.
pub(crate) fn refused(rt: &(impl Print + AllocGlobal)) -> anyhow::Result<()> {
    println!(rt; "refused")?;
    let five = [3, 3, 3, 3, 3];
    let three = [3];
    refuse(rt, &five, &[in_class(64, 12)])?;
    refuse(rt, &three, &[linked(32, 0, 12)])?;
    refuse(
        rt,
        &[],
        &[AskedAtom::InClass(Class(0), AskedTerm::Named(Name(1024)))],
    )?;
    refuse(rt, &five, &[in_class(63, 12)])?;
    refuse(rt, &three, &[])?;
    refuse(rt, &three, &[in_class(0, 12); 7])?;
    refuse(rt, &three, &[in_class(0, 12)])?;
    refuse(rt, &[12], &[linked(31, 11, 0)])?;
    refuse(rt, &three, &[linked(31, 11, 0)])
}

fn refuse<'a>(
    rt: &(impl Print + AllocGlobal),
    head: &'a [u8],
    atoms: &'a [AskedAtom],
) -> anyhow::Result<()> {
    ask(rt, &[], Question { head, atoms }, 8)
}
