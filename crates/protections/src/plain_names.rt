//! The plain protection: bytes as they are, with A to Z made small for its verdict.
ghost use Rattle.std.specs.Prelude.{◌≡◌, ℕ, List, [], Some, Option, ◌↔◌};
ghost use Rattle.protections.specs.Keys.{lowered};
ghost use Rattle.protections.specs.Names.{git, modules};
ghost use Rattle.protections.specs.declared.rules.Mode.TheVariants.{Symlink};
ghost use Rattle.protections.specs.Rules.{numbered, plain_rule};
ghost use Rattle.protections.specs.BoundLemmas.{bytes_bounded};
ghost use Rattle.protections.specs.EndLemmas.{none_trimmed};

use crate::first_bytes::take_byte;
use crate::keys::Keyed;
use crate::rules::{Mode, Protection, Verdict, verdict_by_key};
use crate::small_letters::Lowered;

/// Refuses `.git`, and `.gitmodules` as a link, in any case of the letters. Its key is the bytes.
#[derive(Clone, Copy, PartialEq, Eq, Debug)]
pub struct Plain;

impl Keyed for Plain {
    ghost key = { λ _ s. s };

    ghost yielded = { λ _ s. s };

    ghost ignored_at_end = { λ _. [] };

    ghost key_of_yielded = { λ p s. none_trimmed s };

    ghost bounded = { λ p s h. bytes_bounded s h };

    fn advance(&self, rest: &mut &[u8]) -> Option<u32> {
        take_byte(rest)
    }

    fn is_ignored_at_end(&self, _number: u32) -> bool {
        false
    }
}

impl Protection for Plain {
    ghost verdict_of = { λ _ s mode. plain_rule s mode };

    #[tactic(auto, unfolding(crate::specs::Rules::plain_rule))]
    fn verdict(&self, component: &[u8], mode: Option<Mode>) -> Option<Verdict>
        ensures value { numbered result ≡ plain_rule component.now mode }
        ensures verdicts { (s : List ℕ) (m : Option Mode)
            → ⟦<Plain as Protection>⟧.verdict_of self.now s m ≡ plain_rule s m }
        ensures key { (s : List ℕ) → ⟦<Plain as Keyed>⟧.key self.now s ≡ s }
        ensures git { (numbered result ≡ Some 26) ↔ (lowered component.now ≡ git) }
        ensures link { (numbered result ≡ Some 27)
            ↔ (mode ≡ Some Symlink) × (lowered component.now ≡ modules) }
    {
        verdict_by_key(&Lowered, component, mode)
    }
}
