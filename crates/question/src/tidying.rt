//! Tidying a question.

ghost use Rattle.std.specs.Prelude.{◌≡◌, ◌+◌, length};
ghost use Rattle.question.specs.Parts.{of_parts};
ghost use Rattle.question.specs.Shorts.{listed};
ghost use Rattle.theory.specs.Tidying.{rounds, tidy};

use crate::parts::Parts;

impl Parts {
    /// The question after one round more than it has atoms, when no round changes it any more.
    fn rounded(self) -> Parts
        ensures { of_parts result ≡ rounds (length (listed self.atoms) + 1) (of_parts self) }
    {
        let mut made = self;
        for _i in 0..self.atoms.len() + 1 {
            made = made.round();
        }
        made
    }

    /// The tidy question.
    pub(crate) fn tidied(self) -> Parts
        ensures { of_parts result ≡ tidy (of_parts self) }
    {
        let rounded = self.rounded();
        rounded.numbered(&rounded.order())
    }
}
