//! The calls of a script, read from the words of a line.

ghost use Rattle.script.specs.Offers.{Offered};
ghost use Rattle.script.specs.Rules.{RuleOf, WrittenOf};
ghost use Rattle.std.specs.Prelude.{◌≡◌, IfOk, Ok};
ghost use Rattle.vocabulary.specs.Ranges.{RuleFits};

use crate::expected::Expected;
use crate::notation::fact;
use crate::offer::Offer;
use crate::words::{Words, code, size};
use vocabulary::basic::{Basic, Coded, Directed};
use vocabulary::facts::Fact;
use vocabulary::faults::Fault;
use vocabulary::rules::Rule;

/// One call, with its numbers as they are written: any may be out of range.
#[derive(Clone, Copy)]
pub(crate) enum Call {
    /// Opens a draft of the family with this code: a number, since it comes from outside, and a wrong one is refused with a fault.
    Family(u8),
    /// Enters a rule in the draft.
    Rule(Written),
    /// Seals the draft.
    Seal,
    /// Asks the sealed book whether a rule follows from it.
    Follows(Written),
    /// Makes an empty store.
    Store(Making),
    /// Enters a fact in the store.
    Enter(Fact),
    /// Withdraws a fact from the store.
    Withdraw(Fact),
    /// Lists the facts of the store.
    List,
}

impl Call {
    /// The call that a line writes, of those on offer.
    pub(crate) fn read(line: &str, offer: Offer) -> Result<Call, Expected>
        ensures { IfOk result (Offered offer) }
    {
        let mut words = Words::new(line);
        let call = match (words.next(), offer) {
            (Some("family"), _) => Call::Family(words.read(code, Expected::FamilyCode)?),
            (Some("rule"), _) => Call::Rule(Written::read(&mut words)?),
            (Some("seal"), _) => Call::Seal,
            (Some("follows"), _) => Call::Follows(Written::read(&mut words)?),
            (Some("store"), Offer::Facts) => Call::Store(Making::read(&mut words)?),
            (Some("enter"), Offer::Facts) => Call::Enter(words.read(fact, Expected::Fact)?),
            (Some("withdraw"), Offer::Facts) => Call::Withdraw(words.read(fact, Expected::Fact)?),
            (Some("list"), Offer::Facts) => Call::List,
            _ => return Err(Expected::Call(offer)),
        };
        words.end()?;
        Ok(call)
    }
}

/// A make of store, with the number that its call gives.
#[derive(Clone, Copy)]
pub(crate) enum Making {
    /// A list store over a table of so many places.
    List(usize),
    /// A bit store for names below this number.
    Bits(usize),
}

impl Making {
    fn read(words: &mut Words) -> Result<Making, Expected> {
        match words.next() {
            Some("list") => Ok(Making::List(words.read(size, Expected::StoreSize)?)),
            Some("bits") => Ok(Making::Bits(words.read(size, Expected::StoreSize)?)),
            _ => Err(Expected::StoreMake),
        }
    }
}

/// A rule by the codes that stand in it.
#[derive(Clone, Copy)]
pub enum Written {
    Within(u8, u8),
    Apart(u8, u8),
    LinkWithin(u8, u8),
    LinkApart(u8, u8),
    Single(u8),
}

impl Written {
    fn read(words: &mut Words) -> Result<Written, Expected> {
        match words.next() {
            Some("link") => {
                let link = words.read(code, Expected::LinkCode)?;
                Written::on_links(link, words)
            }
            Some(word) => {
                let class = code(word).ok_or(Expected::RuleStart)?;
                Written::on_classes(class, words)
            }
            None => Err(Expected::RuleStart),
        }
    }

    // Not one function with `on_links`: the words, the rules and what else may follow differ.
    fn on_classes(first: u8, words: &mut Words) -> Result<Written, Expected> {
        match words.next() {
            Some("within") => Ok(Written::Within(first, words.read(code, Expected::SecondCode)?)),
            Some("apart") => Ok(Written::Apart(first, words.read(code, Expected::SecondCode)?)),
            _ => Err(Expected::ClassRelation),
        }
    }

    fn on_links(first: u8, words: &mut Words) -> Result<Written, Expected> {
        match words.next() {
            Some("within") => Ok(Written::LinkWithin(
                first,
                words.read(code, Expected::SecondCode)?,
            )),
            Some("apart") => Ok(Written::LinkApart(first, words.read(code, Expected::SecondCode)?)),
            Some("single") => Ok(Written::Single(first)),
            _ => Err(Expected::LinkRelation),
        }
    }
}

/// A rule as a call writes it, or the range fault.
impl TryFrom<Rule> for Written {
    type Error = Fault;

    ghost try_from_gives = { WrittenOf };

    fn try_from(rule: Rule) -> Result<Written, Fault> {
        Ok(match rule {
            Rule::Within(b, c) => Written::Within(b.code()?, c.code()?),
            Rule::Apart(b, c) => Written::Apart(b.code()?, c.code()?),
            Rule::LinkWithin(d, e) => Written::LinkWithin(d.code()?, e.code()?),
            Rule::LinkApart(d, e) => Written::LinkApart(d.code()?, e.code()?),
            Rule::Single(d) => Written::Single(d.code()?),
        })
    }
}

/// The rule with these codes, or the range fault.
impl TryFrom<Written> for Rule {
    type Error = Fault;

    ghost try_from_gives = { RuleOf };

    fn try_from(written: Written) -> Result<Rule, Fault> {
        Ok(match written {
            Written::Within(a, b) => Rule::Within(Basic::try_from(a)?, Basic::try_from(b)?),
            Written::Apart(a, b) => Rule::Apart(Basic::try_from(a)?, Basic::try_from(b)?),
            Written::LinkWithin(a, b) => Rule::LinkWithin(
                Directed::try_from(a)?,
                Directed::try_from(b)?,
            ),
            Written::LinkApart(a, b) => Rule::LinkApart(
                Directed::try_from(a)?,
                Directed::try_from(b)?,
            ),
            Written::Single(a) => Rule::Single(Directed::try_from(a)?),
        })
    }
}
