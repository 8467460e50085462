//! A table of bytes as bits, and the search for a set bit by its place among them.

ghost use Rattle.std.specs.Prelude.{◌≡◌, ℕ, ◌/◌, ◌<◌, length, map};
ghost use Rattle.bits.specs.Words.{bit_of};
ghost use Rattle.bitstore.specs.Marks.{Measures, Ranked, Reaches, Within, bit_at, tally};
ghost use Rattle.std.specs.Fn.{FnReturnsAt};

/// Whether bit `j` of a byte is set.
fn bit_in(byte: u8, j: usize) -> bool
    requires { j < 8 }
    ensures { result ≡ bit_of byte j }
{
    (byte >> j) & 1 == 1
}

/// Whether bit `k` is set.
pub(crate) fn bit(table: &[u8], k: usize) -> bool
    requires { k / 8 < length table.now }
    ensures { result ≡ bit_at table.now k }
{
    bit_in(table[k / 8], k % 8)
}

/// Where a search among sizes ended.
#[derive(Clone, Copy)]
pub(crate) struct Spot {
    /// The element that was reached.
    pub(crate) at: usize,
    /// How much of it lies before what was sought.
    pub(crate) left: usize,
}

/// The spot that is `left` beyond the start of element `from`, where `size` says how large an element is.
pub(crate) fn reach<T, F: Fn(&T) -> usize>(items: &[T], from: usize, left: usize, size: F) -> Spot
    requires callable { F.IsAlwaysCallable size }
    requires within { (measure : T → ℕ) × Measures (FnReturnsAt F.Fn size) measure items.now × Reaches (map measure items.now) from left }
    ensures inside { result.at < length items.now }
    ensures measured { (measure : T → ℕ) → Measures (FnReturnsAt F.Fn size) measure items.now → Within (map measure items.now) from left result.at result.left }
{
    let mut left = left;
    for (i, item) in items[from..].iter().enumerate() {
        let here = size(item);
        if left < here {
            return Spot { at: from + i, left };
        }
        left -= here;
    }
    unreachable()
}

/// How many bits of a byte are set.
pub(crate) fn weight(byte: u8) -> usize
    ensures { result ≡ tally (bit_of byte) 8 }
{
    byte.count_ones() as usize
}

/// The set bit of a byte that has `left` set bits before it.
pub(crate) fn nth_set(byte: u8, left: usize) -> usize
    requires { left < tally (bit_of byte) 8 }
    ensures { (result < 8) × Ranked (bit_of byte) left result }
{
    (0..8usize).filter(|j| bit_in(byte, *j)).nth(left).unwrap()
}
