//! One round of tidying: equal atoms once, and then lone variables opened.

ghost use Rattle.std.specs.Prelude.{◌≡◌, []};
ghost use Rattle.question.specs.Parts.{of_parts};
ghost use Rattle.question.specs.Shorts.{listed};
ghost use Rattle.theory.specs.Tidying.{all_terms, lone, once_each, opened, round};

use crate::changes::on_atoms;
use crate::parts::Parts;
use crate::short::Short;
use vocabulary::questions::{Atom, Term};

/// The atoms without those that equal an earlier one.
fn once_each(xs: &Short<Atom, 6>) -> Short<Atom, 6>
    ensures { listed result ≡ once_each [] (listed xs.now) }
{
    let mut made = Short::empty();
    for a in xs.all() {
        made.push_new(*a);
    }
    made
}

impl Parts {
    /// The question after one round.
    pub(crate) fn round(self) -> Parts
        ensures { of_parts result ≡ round (of_parts self) }
    {
        let kept = Parts {
            head: self.head,
            atoms: once_each(&self.atoms),
        };
        let opened = |t: Term| -> Term
            ensures { result ≡ opened (lone (listed kept.head) (all_terms (listed kept.atoms))) t }
        {
            match t {
                Term::Variable(n) if kept.alone(n) => Term::Open,
                _ => t,
            }
        };
        Parts {
            head: self.head,
            atoms: on_atoms(&kept.atoms, &opened),
        }
    }
}
