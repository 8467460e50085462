//! What a line should have had.

use crate::offer::Offer;
use std::fmt;

/// What was expected where a line cannot be read, or its call is not possible yet.
#[derive(Clone, Copy)]
pub(crate) enum Expected {
    /// The first word names no call of those on offer.
    Call(Offer),
    /// `family` has no number.
    FamilyCode,
    /// A rule begins with neither a code nor `link`.
    RuleStart,
    /// The first basic class stands in no relation.
    ClassRelation,
    /// The relation has no second code.
    SecondCode,
    /// `link` has no code.
    LinkCode,
    /// The link stands in no relation.
    LinkRelation,
    /// `store` names no make.
    StoreMake,
    /// The make of the store has no number.
    StoreSize,
    /// `enter` or `withdraw` has no fact.
    Fact,
    /// A word follows a whole call.
    End,
    /// No draft was opened.
    Opening,
    /// A draft was asked for what follows.
    Sealing,
    /// A rule came after the book was sealed.
    OpeningForRule,
    /// The book is sealed already.
    OpeningForSeal,
    /// No store was made.
    Making,
}

impl Expected {
    fn text(self) -> &'static str {
        match self {
            Expected::Call(Offer::Rules) => "expected `family`, `rule`, `seal` or `follows`",
            Expected::Call(Offer::Facts) =>
                "expected `family`, `rule`, `seal`, `follows`, `store`, `enter`, `withdraw` or `list`",
            Expected::FamilyCode => "expected a number after `family`",
            Expected::RuleStart => "expected a code or `link` at the start of the rule",
            Expected::ClassRelation => "expected `within` or `apart` after the first code",
            Expected::SecondCode => "expected a second code after `within` or `apart`",
            Expected::LinkCode => "expected a code after `link`",
            Expected::LinkRelation =>
                "expected `within`, `apart` or `single` after the code of the link",
            Expected::StoreMake => "expected `list` or `bits` after `store`",
            Expected::StoreSize => "expected a number after `list` or `bits`",
            Expected::Fact => "expected a fact, as c5(7) or l1(7,8)",
            Expected::End => "expected the end of the line after the call",
            Expected::Opening => "expected `family 0` or `family 1` first",
            Expected::Sealing => "the draft is not sealed, expected `seal` before `follows`",
            Expected::OpeningForRule => "the book is sealed, expected `family` before another rule",
            Expected::OpeningForSeal => "the book is sealed, expected `family` before another seal",
            Expected::Making => "expected `store list` or `store bits` first",
        }
    }
}

impl fmt::Display for Expected {
    fn fmt<W: fmt::Write>(&self, f: &mut fmt::Formatter<W>) -> fmt::Result {
        f.write_str(self.text())
    }
}
