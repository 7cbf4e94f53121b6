//! A pile whose layers are chosen when a program runs.
ghost use Rattle.std.specs.Prelude.{◌≡◌, ℕ, ◌≤◌, ◌↔◌, ◌⊎◌, List, [], ◌∷◌, ◌++◌, map, Option, length, IsTrue, IsOk, IfOk, IfErr, Any, bytes_eq};
ghost use Rattle.std.specs.List.{list_any};
ghost use Rattle.filesystems.specs.Keys.{bytes_key};
ghost use Rattle.filesystems.specs.Pairs.{Pairs, Confused};
ghost use Rattle.piles.specs.AnyProtection.{key_of};
ghost use Rattle.piles.specs.Piles.{Alike, IsOfBottom, IsOfLayer, Pile, judged};

use crate::any_protection::AnyProtection;
use crate::refusal::PileError;
use arrayvec::ArrayVec;
use filesystems::{DeclaredBottom, FileSystem, Layer};
use protections::{Mode, Protection, Verdict, same_key};
use std::marker::Model;

/// How many layers a pile has at most.
pub const MOST_LAYERS: usize = 16;

/// A pile of at most 16 layers over a declared bottom. Its layers are chosen when a program runs,
/// and the first is on top.
#[derive(Drop)]
pub struct ChosenPile {
    layers: ArrayVec<AnyProtection, MOST_LAYERS>,
    bottom: DeclaredBottom,
}

impl Model for ChosenPile {
    ghost use Rattle.piles.specs.Piles.{Pile};

    ghost Value = { Pile };

    ghost view = { λ p. record { layers = p.layers.items; bottom = p.bottom } };
}

// Whether two components are equal under the key of the layer.
fn are_equal_under(layer: AnyProtection, left: &[u8], right: &[u8]) -> bool
    ensures { result ≡ bytes_eq (key_of layer left.now) (key_of layer right.now) }
{
    same_key(&layer, left, right)
}

impl ChosenPile {
    /// The pile of these layers, the first on top, over the bottom. It is refused by 34 exactly
    /// where there are more than 16 layers, repeats counted.
    pub fn new(layers: &[AnyProtection], bottom: DeclaredBottom) -> Result<ChosenPile, PileError>
        ensures fits { IsOk result ↔ (length layers.now ≤ MOST_LAYERS) }
        ensures too_many { IfErr result (λ error. error ≡ PileError.TooManyLayers) }
        ensures parts { IfOk result (λ pile. (pile.layers ≡ layers.now) × (pile.bottom ≡ bottom)) }

        // What a pile means, whichever layers and pairs it has.
        ensures verdicts { (pile : Pile) (s : List ℕ) (mode : Option Mode)
            → ⟦<ChosenPile as FileSystem>⟧.verdict_of pile s mode ≡ judged pile.layers s mode }
        ensures first { (pile : Pile) (s : List ℕ) (mode : Option Mode)
            → let verdict = ⟦<ChosenPile as FileSystem>⟧.verdict_of pile s mode in
            IsOfLayer pile.layers s mode verdict ⊎ IsOfBottom pile.layers s mode verdict }
        ensures confuses { (pile : Pile) (a b : List ℕ)
            → IsTrue (⟦<ChosenPile as FileSystem>⟧.together pile a b)
            ↔ (Any (λ layer. key_of layer a ≡ key_of layer b) pile.layers
            ⊎ Confused pile.bottom a b) }
        ensures compares { (pile : Pile)
            → ⟦<ChosenPile as FileSystem>⟧.keys pile
            ≡ map key_of pile.layers ++ bytes_key ∷ [] }

        // It is the pile that is built by hand: with no layer it is its bottom, and else what
        // `Layer` makes of the first layer and the pile of the others.
        ensures bare { (bottom : Pairs) → Alike
            ⟦<ChosenPile as FileSystem>⟧ (record { layers = []; bottom = bottom })
            ⟦<DeclaredBottom as FileSystem>⟧ bottom }
        ensures layered { (layer : AnyProtection) (layers : List AnyProtection) (bottom : Pairs)
            → Alike
            ⟦<ChosenPile as FileSystem>⟧ (record { layers = layer ∷ layers; bottom = bottom })
            ⟦<Layer<AnyProtection, ChosenPile> as FileSystem>⟧
            (record { protection = layer; below = record { layers = layers; bottom = bottom } }) }
    {
        let layers = ArrayVec::try_from(layers).map_err(|_| PileError::TooManyLayers)?;
        Ok(ChosenPile { layers, bottom })
    }

    // Whether two components are equal under the key of some layer.
    fn are_equal_under_some(&self, left: &[u8], right: &[u8]) -> bool
        ensures { result
            ≡ list_any (λ layer. bytes_eq (key_of layer left.now) (key_of layer right.now))
            self.now.layers }
    {
        self.layers
            .iter()
            .any(|layer| are_equal_under(*layer, left, right))
    }
}

impl FileSystem for ChosenPile {
    ghost use Rattle.protections.specs.declared.rules.Mode.{Mode};
    ghost use Rattle.piles.specs.Piles.{judged, together, keys_of};
    ghost use Rattle.piles.specs.PileLemmas.{together_sym, keys_of-not_empty, together_under};

    ghost verdict_of = { λ p s mode. judged p.layers s mode };

    ghost together = { λ p a b. together p.layers p.bottom a b };

    ghost keys = { λ p. keys_of p.layers };

    ghost symmetric = { λ f a b e. together_sym f.layers f.bottom a b e };

    ghost equal_keys_together = { λ f. (
      keys_of-not_empty f.layers,
      together_under f.layers f.bottom,
    ) };

    fn verdict(&self, component: &[u8], mode: Option<Mode>) -> Option<Verdict> {
        for layer in self.layers.as_slice() {
            let verdict = layer.verdict(component, mode);
            if verdict.is_some() {
                return verdict;
            }
        }
        self.bottom.verdict(component, mode)
    }

    #[tactic(auto, using(crate::proofs::Together::together_any))]
    fn lie_together(&self, left: &[u8], right: &[u8]) -> bool {
        self.are_equal_under_some(left, right) || self.bottom.lie_together(left, right)
    }
}
