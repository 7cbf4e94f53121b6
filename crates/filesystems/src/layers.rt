//! A layer: any protection over any file system, which is a file system again.
ghost use Rattle.std.specs.Prelude.{◌≡◌, ℕ, ◌||◌, ◌⊎◌, ◌↔◌, List, ◌∷◌, Option, IsTrue, bytes_eq};
ghost use Rattle.std.specs.Option.{option_or};
ghost use Rattle.filesystems.specs.LayerLemmas.{either_sym, none_empty, either_under};

use crate::interface::FileSystem;
use protections::{Mode, Protection, Verdict, same_key};

/// A protection over a file system.
#[derive(Drop)]
pub struct Layer<P, F> {
    protection: P,
    below: F,
}

impl<P: Protection, F: FileSystem> Layer<P, F> {
    /// The protection over what is below.
    pub fn new(protection: P, below: F) -> Layer<P, F>
        ensures parts { (result.protection ≡ protection) × (result.below ≡ below) }
        ensures verdicts { (s : List ℕ) (mode : Option Mode)
            → ⟦<Layer<P, F> as FileSystem>⟧.verdict_of result s mode
            ≡ option_or (P.Protection.verdict_of protection s mode)
            (F.FileSystem.verdict_of below s mode) }
        ensures confuses { (a b : List ℕ)
            → IsTrue (⟦<Layer<P, F> as FileSystem>⟧.together result a b)
            ↔ ((P.Keyed.key protection a ≡ P.Keyed.key protection b)
            ⊎ IsTrue (F.FileSystem.together below a b)) }
        ensures compares { ⟦<Layer<P, F> as FileSystem>⟧.keys result
            ≡ P.Keyed.key protection ∷ F.FileSystem.keys below }
    {
        Layer { protection, below }
    }
}

impl<P: Protection, F: FileSystem> FileSystem for Layer<P, F> {
    ghost verdict_of = { λ l s mode.
        option_or (P.Protection.verdict_of l.protection s mode)
        (F.FileSystem.verdict_of l.below s mode) };

    ghost together = { λ l a b.
        bytes_eq (P.Keyed.key l.protection a) (P.Keyed.key l.protection b)
        || F.FileSystem.together l.below a b };

    ghost keys = { λ l. P.Keyed.key l.protection ∷ F.FileSystem.keys l.below };

    ghost symmetric = { λ f a b e.
        either_sym (P.Keyed.key f.protection) (F.FileSystem.together f.below)
        (F.FileSystem.symmetric f.below) a b e };

    ghost equal_keys_together = { λ f. (
      none_empty _ _,
      either_under (P.Keyed.key f.protection) (F.FileSystem.together f.below)
          (F.FileSystem.keys f.below) (F.FileSystem.equal_keys_together f.below).1,
    ) };

    fn verdict(&self, component: &[u8], mode: Option<Mode>) -> Option<Verdict> {
        self.protection
            .verdict(component, mode)
            .or_else(|| self.below.verdict(component, mode))
    }

    fn lie_together(&self, left: &[u8], right: &[u8]) -> bool {
        same_key(&self.protection, left, right) || self.below.lie_together(left, right)
    }
}
