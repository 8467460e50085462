//! What an entry or a withdrawal did.

ghost use Rattle.std.specs.Prelude.{◌≡◌};
ghost use Rattle.vocabulary.specs.Effects.{effect_number, effect_of};

/// Whether the call changed what is held: an entry of what stands already, or a withdrawal of what is absent, does not.
#[derive(Clone, Copy, PartialEq, Eq)]
pub enum Effect {
    Unchanged,
    Changed,
}

/// 0 where nothing changed, 1 where it did.
impl From<Effect> for u8 {
    ghost from_gives = { λ effect n. n ≡ effect_number effect };

    fn from(effect: Effect) -> u8 {
        match effect {
            Effect::Unchanged => 0,
            Effect::Changed => 1,
        }
    }
}

/// Where it is true that something changed.
impl From<bool> for Effect {
    ghost from_gives = { λ changed effect. effect ≡ effect_of changed };

    fn from(changed: bool) -> Effect {
        if changed {
            Effect::Changed
        } else {
            Effect::Unchanged
        }
    }
}
