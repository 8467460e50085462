//! The words of a line, read one by one.

ghost use Rattle.std.specs.Prelude.{◌-◌, ◌^◌};
ghost use Rattle.script.specs.Numbers.{Reads};

use crate::expected::Expected;
use std::str::SplitWhitespace;

/// The words of a line that are still to be read.
#[derive(Drop)]
pub(crate) struct Words<'a> {
    rest: SplitWhitespace<'a>,
}

impl<'a> Words<'a> {
    pub(crate) fn new(line: &'a str) -> Words<'a> {
        Words {
            rest: line.split_whitespace(),
        }
    }

    pub(crate) fn next(&mut self) -> Option<&'a str> {
        self.rest.next()
    }

    /// What the next word is read as, or what was expected in its place.
    pub(crate) fn read<T, F: FnOnce(&'a str) -> Option<T>>(
        &mut self,
        read: F,
        expected: Expected,
    ) -> Result<T, Expected>
        requires { F.IsAlwaysCallable read }
    {
        self.next().and_then(read).ok_or(expected)
    }

    /// Refuses words that no call takes.
    pub(crate) fn end(&mut self) -> Result<(), Expected> {
        match self.next() {
            Some(_) => Err(Expected::End),
            None => Ok(()),
        }
    }
}

// Not one function for codes, sizes and names: nothing says of any type of numbers which is its largest.

/// The code that a word writes. One past 255 answers 255, which is out of every range too.
pub(crate) fn code(word: &str) -> Option<u8>
    ensures { Reads 255 word.now result }
{
    Some(u8::try_from(number(word)?).unwrap_or(u8::MAX))
}

/// The size that a word writes.
pub(crate) fn size(word: &str) -> Option<usize>
    ensures { Reads (2 ^ 64 - 1) word.now result }
{
    Some(number(word)? as usize)
}

/// The number that a word writes in decimal, or the largest of the type where that is smaller.
pub(crate) fn number(word: &str) -> Option<u64>
    ensures { Reads (2 ^ 64 - 1) word.now result }
{
    if word.is_empty() {
        return None;
    }
    let mut n: u64 = 0;
    for b in word.bytes() {
        if !b.is_ascii_digit() {
            return None;
        }
        n = n.saturating_mul(10).saturating_add(u64::from(b - b'0'));
    }
    Some(n)
}
