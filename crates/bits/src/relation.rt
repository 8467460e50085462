//! A symmetric relation on the numbers below 64 * stride, in a lent table with `stride` words to a row.

ghost use Rattle.std.specs.Prelude.{◌≡◌, ℕ, ◌+◌, ◌*◌, ◌<◌, true, length, Decides};
ghost use Rattle.bits.specs.Relations.{Covers, Grows, Inherited, Inherits, Joins, On, Placed, Symmetric};
ghost use Rattle.bits.specs.Words.{word};

use crate::table::{Bits, get};

/// How many numbers a relation of that stride is on.
fn size(stride: u8) -> usize
    ensures { result ≡ 64 * stride }
{
    64 * stride as usize
}

/// The number of the bit that relates a and b, if both are in range.
fn place(stride: u8, a: usize, b: usize) -> Option<usize>
    ensures { Placed stride a b result }
{
    let n = size(stride);
    if a >= n || b >= n {
        return None;
    }
    Some(64 * (stride as usize * a) + b)
}

/// Whether a table of that stride relates a and b; a number out of range is related to none.
pub fn related_by(words: &[u64], stride: u8, a: usize, b: usize) -> bool
    ensures { Decides result (On stride words.now a b) }
{
    match place(stride, a, b) {
        Some(m) => get(words, m),
        None => false,
    }
}

/// The same for a stride that is known when the caller is compiled.
pub fn related<const STRIDE: u8>(words: &[u64], a: usize, b: usize) -> bool
    ensures { Decides result (On STRIDE words.now a b) }
{
    related_by(words, STRIDE, a, b)
}

/// A symmetric relation that grows, and holds its stride.
#[derive(Drop)]
pub struct Strided<'a> {
    bits: Bits<'a>,
    stride: u8,
    ghost sized: { length bits.words.now ≡ 64 * (stride * stride) },
    ghost symmetric: { Symmetric stride bits.words.now },
}

impl<'a> Strided<'a> {
    /// No two numbers are related, whatever the words hold.
    pub fn none(words: &'a mut [u64], stride: u8) -> Strided<'a>
        requires { length words.old ≡ 64 * (stride * stride) }
        ensures stride { result.stride ≡ stride }
        ensures empty { (a b : ℕ) → On stride result.bits.words.now a b → ⊥ }
    {
        let bits = Bits::clear(words);
        Strided { bits, stride }
    }

    /// Whether a and b are related; a number out of range is related to none.
    pub fn has(&self, a: usize, b: usize) -> bool
        ensures { Decides result (On self.now.stride self.now.bits.words.now a b) }
    {
        related_by(self.bits.words(), self.stride, a, b)
    }

    /// Relates a and b, and says whether that is new; where one is out of range it changes nothing.
    pub fn add(&mut self, a: usize, b: usize) -> bool
        ensures stride { self.new.stride ≡ self.old.stride }
        ensures grows { Joins self.old.stride a b result self.old.bits.words.now self.new.bits.words.now }
    {
        if self.has(a, b) {
            return false;
        }
        let (Some(m), Some(k)) = (place(self.stride, a, b), place(self.stride, b, a)) else {
            return false;
        };
        self.bits.set(m);
        self.bits.set(k);
        true
    }

    /// The words of row a.
    #[tactic(auto, using(crate::proofs::Places::row_inside))]
    fn row(&self, a: usize) -> &[u64]
        requires { a < 64 * self.now.stride }
        ensures length { length result.now ≡ self.now.stride }
        ensures words { (j : ℕ) → j < self.now.stride → word result.now j ≡ word self.now.bits.words.now (self.now.stride * a + j) }
    {
        let stride = self.stride as usize;
        &self.bits.words()[stride * a..stride * a + stride]
    }

    /// Whether row `from` has every bit of row `to`, word by word; a row out of range is not asked for.
    fn covers(&self, from: usize, to: usize) -> bool
        ensures { result ≡ true → from < 64 * self.now.stride → Covers self.now.stride self.now.bits.words.now from to (64 * self.now.stride) }
    {
        let n = size(self.stride);
        if from >= n || to >= n {
            return true;
        }
        self.row(to)
            .iter()
            .zip(self.row(from))
            .all(|(theirs, mine)| theirs | mine == *mine)
    }

    /// Relates `from` to k if `to` is related to k, and says whether that is new.
    fn pass(&mut self, from: usize, to: usize, k: usize) -> bool
        ensures stride { self.new.stride ≡ self.old.stride }
        ensures grows { Grows self.old.stride (Inherited from to (On self.old.stride self.old.bits.words.now)) (λ v. from < 64 * self.old.stride → On self.old.stride v to k → On self.old.stride v from k) result self.old.bits.words.now self.new.bits.words.now }
    {
        if self.has(to, k) {
            self.add(from, k)
        } else {
            false
        }
    }

    /// Relates `from` to what `to` is related to, and says whether any of that is new.
    pub fn inherit(&mut self, from: usize, to: usize) -> bool
        ensures stride { self.new.stride ≡ self.old.stride }
        ensures grows { Inherits self.old.stride from to result self.old.bits.words.now self.new.bits.words.now }
    {
        if self.covers(from, to) {
            return false;
        }
        let n = size(self.stride);
        let mut any = false;
        for k in 0..n {
            any |= self.pass(from, to, k);
        }
        any
    }

    /// The table, for as long as it is lent.
    pub fn into_words(self) -> &'a [u64]
        ensures { result.now ≡ self.entry.bits.words.now }
    {
        let Strided { bits, stride: _ } = self;
        bits.into_words()
    }
}

/// A symmetric relation whose stride is part of its type, so that callers need not say that it stays.
#[derive(Drop)]
pub struct Relation<'a, const STRIDE: u8> {
    strided: Strided<'a>,
    ghost stride: { strided.stride ≡ STRIDE },
    ghost sized: { length strided.bits.words.now ≡ 64 * (STRIDE * STRIDE) },
    ghost symmetric: { Symmetric STRIDE strided.bits.words.now },
}

impl<'a, const STRIDE: u8> Relation<'a, STRIDE> {
    /// No two numbers are related, whatever the words hold.
    pub fn none(words: &'a mut [u64]) -> Relation<'a, STRIDE>
        requires { length words.old ≡ 64 * (STRIDE * STRIDE) }
        ensures { (a b : ℕ) → On STRIDE result.strided.bits.words.now a b → ⊥ }
    {
        let strided = Strided::none(words, STRIDE);
        Relation { strided }
    }

    /// Whether a and b are related; a number out of range is related to none.
    pub fn has(&self, a: usize, b: usize) -> bool
        ensures { Decides result (On STRIDE self.now.strided.bits.words.now a b) }
    {
        self.strided.has(a, b)
    }

    /// Relates a and b, and says whether that is new; where one is out of range it changes nothing.
    pub fn add(&mut self, a: usize, b: usize) -> bool
        ensures { Joins STRIDE a b result self.old.strided.bits.words.now self.new.strided.bits.words.now }
    {
        self.strided.add(a, b)
    }

    /// Relates `from` to what `to` is related to, and says whether any of that is new.
    pub fn inherit(&mut self, from: usize, to: usize) -> bool
        ensures { Inherits STRIDE from to result self.old.strided.bits.words.now self.new.strided.bits.words.now }
    {
        self.strided.inherit(from, to)
    }

    /// The table, for as long as it is lent.
    pub fn into_words(self) -> &'a [u64]
        ensures { result.now ≡ self.entry.strided.bits.words.now }
    {
        let Relation { strided } = self;
        strided.into_words()
    }
}
