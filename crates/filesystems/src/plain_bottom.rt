//! The file system below all layers: the plain protection, and equal bytes lie together.
ghost use Rattle.std.specs.Prelude.{◌≡◌, ℕ, ◌↔◌, List, [], ◌∷◌, Option, IsTrue, bytes_eq};
ghost use Rattle.protections.specs.Rules.{numbered, plain_rule};
ghost use Rattle.filesystems.specs.Keys.{bytes_key};
ghost use Rattle.filesystems.specs.LayerLemmas.{bytes_eq_sym, none_empty, only_member, bytes_eq_from, under};

use crate::interface::FileSystem;
use protections::{Mode, Plain, Protection, Verdict};

/// A file system with the verdict and the key of the plain protection: only equal components lie together.
#[derive(Clone, Copy, Debug, PartialEq, Eq)]
pub struct PlainBottom;

impl FileSystem for PlainBottom {
    ghost verdict_of = { λ _ s mode. plain_rule s mode };

    ghost together = { λ _ a b. bytes_eq a b };

    ghost keys = { λ _. bytes_key ∷ [] };

    ghost symmetric = { λ f a b e. bytes_eq_sym a b e };

    ghost equal_keys_together = { λ f. (
      none_empty _ _,
      λ key a b m e. bytes_eq_from a b (under (λ s. s) key a b (only_member bytes_key key m) e),
    ) };

    fn verdict(&self, component: &[u8], mode: Option<Mode>) -> Option<Verdict>
        ensures value { numbered result ≡ plain_rule component.now mode }
        ensures verdicts { (s : List ℕ) (m : Option Mode)
            → ⟦<PlainBottom as FileSystem>⟧.verdict_of self.now s m ≡ plain_rule s m }
    {
        Plain.verdict(component, mode)
    }

    #[tactic(auto, using(crate::proofs::Same::pointwise_bytes_eq))]
    fn lie_together(&self, left: &[u8], right: &[u8]) -> bool
        ensures value { result ≡ bytes_eq left.now right.now }
        ensures decides { IsTrue result ↔ (left.now ≡ right.now) }
        ensures confuses { (a b : List ℕ)
            → IsTrue (⟦<PlainBottom as FileSystem>⟧.together self.now a b) ↔ (a ≡ b) }
        ensures compares { ⟦<PlainBottom as FileSystem>⟧.keys self.now ≡ bytes_key ∷ [] }
    {
        left == right
    }
}
