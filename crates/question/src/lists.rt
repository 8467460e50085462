//! Short lists: reading them, and making one from another.

ghost use Rattle.std.specs.Prelude.{◌≡◌, ◌<◌, ◌≤◌, [], ◌∷◌, ◌++◌, length, map, slice_set};
ghost use Rattle.question.specs.Shorts.{Computes, listed, with_new};
ghost use Rattle.std.specs.List.{remove};
ghost use mathlib.Core.List.{Memᴰ};

use crate::short::Short;
use vocabulary::numbers::Class;
use vocabulary::questions::{Atom, Term};

/// What lies in the places of a short list that hold no element: it says nothing.
pub(crate) trait Blank {
    const BLANK: Self;
}

impl Blank for u8 {
    const BLANK: u8 = 0;
}

impl Blank for Term {
    const BLANK: Term = Term::Open;
}

impl Blank for Atom {
    const BLANK: Atom = Atom::IsIn(Class(0), Term::Open);
}

impl<T: Copy + Blank, const N: usize> Short<T, N> {
    /// The empty list.
    pub(crate) fn empty() -> Short<T, N>
        ensures { listed result ≡ [] }
    {
        Short {
            items: [T::BLANK; N],
            count: 0,
        }
    }

    /// What `f` makes of each of `xs`.
    pub(crate) fn mapped<S: Copy, F: Fn(S) -> T>(xs: &[S], f: F) -> Short<T, N>
        requires few { length xs.now ≤ N }
        requires each { (x : S) → Memᴰ x xs.now → F.pre f x }
        ensures { (g : S → T) → Computes (F.pre f) (F.post f) g → listed result ≡ map g xs.now }
    {
        let mut made = Short::empty();
        for x in xs {
            made.push(f(*x));
        }
        made
    }
}

impl<T: Copy, const N: usize> Short<T, N> {
    /// How many elements there are.
    pub(crate) fn len(&self) -> usize
        ensures { (result ≡ length (listed self.now)) × (result ≤ N) }
    {
        self.count
    }

    /// The elements, in order.
    pub(crate) fn all(&self) -> &[T]
        ensures same { result.now ≡ listed self.now }
        ensures few { length result.now ≤ N }
    {
        &self.items[..self.count]
    }

    /// Puts `x` behind the others.
    pub(crate) fn push(&mut self, x: T)
        requires { length (listed self.old) < N }
        ensures { listed self.new ≡ listed self.old ++ x ∷ [] }
    {
        self.items[self.count] = x;
        self.count += 1;
    }

    /// Puts `x` behind the others, unless one of them equals it.
    pub(crate) fn push_new(&mut self, x: T)
    where
        T: PartialEq,
        requires { length (listed self.old) < N }
        ensures { listed self.new ≡ with_new T.PartialEq.eq (listed self.old) x }
    {
        if !self.all().contains(&x) {
            self.push(x);
        }
    }

    /// Puts `x` in place of the element at `i`.
    pub(crate) fn set(&mut self, i: usize, x: T)
        requires { i < length (listed self.old) }
        ensures { listed self.new ≡ slice_set (listed self.old) i x }
    {
        self.items[i] = x;
    }

    /// Takes out the element at `j`: the later ones move down.
    pub(crate) fn remove(&mut self, j: usize)
        requires { j < length (listed self.old) }
        ensures { listed self.new ≡ remove (listed self.old) j }
    {
        let count = self.count;
        self.items.copy_within(j + 1..count, j);
        self.count = count - 1;
    }
}
