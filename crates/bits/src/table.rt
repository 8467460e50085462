//! The bits of a lent table of 64-bit words: bit m is bit m % 64, lowest bit 0, of word m / 64.

ghost use Rattle.bits.specs.Words.{Marked, bit, word};
ghost use Rattle.std.specs.Prelude.{◌≡◌, length, replicate};

/// Whether bit m is set; past the end of the table none is.
pub fn get(words: &[u64], m: usize) -> bool
    ensures { result ≡ bit words.now m }
{
    (word_at(words, m / 64) >> (m % 64)) & 1 == 1
}

/// The word at a place, 0 past the end.
pub fn word_at(words: &[u64], i: usize) -> u64
    ensures { result ≡ word words.now i }
{
    words.get(i).copied().unwrap_or(0)
}

/// A table that bits are set in. The caller lends it. It has no `Model`: clauses speak of the words, which are all that it has.
#[derive(Drop)]
pub struct Bits<'a> {
    words: &'a mut [u64],
}

impl<'a> Bits<'a> {
    /// All bits clear, whatever the words hold.
    pub fn clear(words: &'a mut [u64]) -> Bits<'a>
        ensures { result.words.now ≡ replicate (length words.old) 0 }
    {
        words.fill(0);
        Bits { words }
    }

    /// Sets bit m, and no other; past the end of the table it sets none.
    pub fn set(&mut self, m: usize)
        ensures { Marked m self.old.words.now self.new.words.now }
    {
        let i = m / 64;
        if i < self.words.len() {
            self.words[i] |= 1u64 << (m % 64);
        }
    }

    /// The words as they are now.
    pub fn words(&self) -> &[u64]
        ensures { result.now ≡ self.now.words.now }
    {
        &*self.words
    }

    /// The words, for as long as they are lent.
    pub fn into_words(self) -> &'a [u64]
        ensures { result.now ≡ self.entry.words.now }
    {
        let Bits { words } = self;
        words
    }
}
