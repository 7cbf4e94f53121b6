//! The declared bottom: pairs of names that a storage confuses, kept in place.
ghost use Rattle.std.specs.Prelude.{◌≡◌, ℕ, ◌≤◌, ◌↔◌, ◌&&◌, ◌||◌, List, [], ◌∷◌, Option, length, IsTrue, IsOk, IfOk, IfErr, OnErr, bytes_eq};

use crate::interface::FileSystem;
use crate::refusal::DeclareError;
use arrayvec::ArrayVec;
use protections::{Mode, Plain, Protection, Verdict};
use std::marker::Model;

// The longest component of a pair, in bytes.
const LONGEST: usize = 32;

// How many pairs there may be.
const MOST: usize = 16;

// Keeps the component, if it is not too long.
fn kept(component: &[u8]) -> Result<ArrayVec<u8, LONGEST>, DeclareError>
    ensures fits { IsOk result ↔ (length component.now ≤ LONGEST) }
    ensures bytes { IfOk result (λ word. word.items ≡ component.now) }
    ensures too_long { IfErr result (λ error. error ≡ DeclareError.ComponentTooLong) }
{
    ArrayVec::try_from(component).map_err(|_| DeclareError::ComponentTooLong)
}

// Two components that lie together.
#[derive(Default, Drop)]
struct Pair {
    left: ArrayVec<u8, LONGEST>,
    right: ArrayVec<u8, LONGEST>,
}

impl Model for Pair {
    ghost Value = { List ℕ × List ℕ };

    ghost view = { λ p. (p.left.items, p.right.items) };
}

impl Pair {
    // Keeps the two components, if neither is too long.
    fn new(left: &[u8], right: &[u8]) -> Result<Pair, DeclareError>
        ensures fits { IsOk result ↔ ((length left.now ≤ LONGEST) × (length right.now ≤ LONGEST)) }
        ensures components { IfOk result (λ pair. pair ≡ (left.now, right.now)) }
        ensures too_long { IfErr result (λ error. error ≡ DeclareError.ComponentTooLong) }
    {
        Ok(Pair {
            left: kept(left)?,
            right: kept(right)?,
        })
    }

    // Whether these are the pair's two components, in this order.
    #[tactic(auto, using(crate::proofs::Same::pointwise_bytes_eq))]
    fn names(&self, left: &[u8], right: &[u8]) -> bool
        ensures { result ≡ (bytes_eq left.now self.now.0 && bytes_eq right.now self.now.1) }
    {
        left == self.left.as_slice() && right == self.right.as_slice()
    }
}

/// A file system with the verdict and the key of the plain protection, that confuses some pairs of components besides.
/// It holds at most 16 pairs of components of at most 32 bytes.
#[derive(Drop)]
pub struct DeclaredBottom {
    pairs: ArrayVec<Pair, MOST>,
}

impl Model for DeclaredBottom {
    ghost use Rattle.filesystems.specs.Pairs.{Pairs, WithinLimits};

    ghost Value = { Pairs };

    ghost view = { λ d. d.pairs.items };

    ghost invariant = { λ d. WithinLimits d.pairs.items };
}

impl DeclaredBottom {
    ghost use Rattle.protections.specs.Rules.{plain_rule};
    ghost use Rattle.filesystems.specs.Keys.{bytes_key};
    ghost use Rattle.filesystems.specs.Pairs.{Pairs, is_declared, Confused, WithinLimits};
    ghost use Rattle.filesystems.specs.Refusal.{refusal_of, declare_rule, pairs_after};

    /// No pair is declared.
    pub fn new() -> DeclaredBottom
        ensures none { result ≡ [] }

        // What a declared bottom means, whichever pairs are declared.
        ensures verdicts { (pairs : Pairs) (s : List ℕ) (mode : Option Mode)
            → ⟦<DeclaredBottom as FileSystem>⟧.verdict_of pairs s mode ≡ plain_rule s mode }
        ensures confuses { (pairs : Pairs) (a b : List ℕ)
            → IsTrue (⟦<DeclaredBottom as FileSystem>⟧.together pairs a b) ↔ Confused pairs a b }
        ensures compares { (pairs : Pairs)
            → ⟦<DeclaredBottom as FileSystem>⟧.keys pairs ≡ bytes_key ∷ [] }
    {
        DeclaredBottom {
            pairs: ArrayVec::new(),
        }
    }

    /// Declares that the two components are confused.
    pub fn declare(&mut self, left: &[u8], right: &[u8]) -> Result<(), DeclareError>
        ensures answer { refusal_of result ≡ declare_rule self.old left.now right.now }
        ensures after { self.new ≡ pairs_after (refusal_of result) self.old left.now right.now }
        ensures unaltered { OnErr result (self.new ≡ self.old) }
        ensures limits { WithinLimits self.new }
    {
        // Borrowed before `?` may return: so the check finds alone that the list is as it was then.
        let pairs = &mut self.pairs;
        let pair = Pair::new(left, right)?;
        pairs.try_push(pair).map_err(|_| DeclareError::TooManyPairs)
    }

    // Whether the two components are a pair, in this order.
    fn pairs_up(&self, left: &[u8], right: &[u8]) -> bool
        ensures { result ≡ is_declared self.now left.now right.now }
    {
        self.pairs.iter().any(|pair| pair.names(left, right))
    }

    // Whether the two components are a pair, in either order.
    fn declares(&self, left: &[u8], right: &[u8]) -> bool
        ensures { result
            ≡ (is_declared self.now left.now right.now || is_declared self.now right.now left.now) }
    {
        self.pairs_up(left, right) || self.pairs_up(right, left)
    }
}

// The verdict and the key are the plain protection's, as in `PlainBottom`: each is one line here, and calling `PlainBottom` for them
// would take as many.
impl FileSystem for DeclaredBottom {
    ghost use Rattle.protections.specs.Rules.{plain_rule};
    ghost use Rattle.filesystems.specs.Keys.{bytes_key};
    ghost use Rattle.filesystems.specs.LayerLemmas.{none_empty, only_member, under};
    ghost use Rattle.filesystems.specs.Pairs.{confused, Confused};
    ghost use Rattle.filesystems.specs.PairLemmas.{confused_sym, confused_equal};

    ghost verdict_of = { λ _ s mode. plain_rule s mode };

    ghost together = { λ d a b. confused d a b };

    ghost keys = { λ _. bytes_key ∷ [] };

    ghost symmetric = { λ f a b e. confused_sym f a b e };

    ghost equal_keys_together = { λ f. (
      none_empty _ _,
      λ key a b m e.
          confused_equal f a b (under (λ s. s) key a b (only_member bytes_key key m) e),
    ) };

    fn verdict(&self, component: &[u8], mode: Option<Mode>) -> Option<Verdict> {
        Plain.verdict(component, mode)
    }

    #[tactic(auto, using(crate::proofs::Same::pointwise_bytes_eq), unfolding(crate::specs::Pairs::confused))]
    fn lie_together(&self, left: &[u8], right: &[u8]) -> bool
        ensures value { result ≡ confused self.now left.now right.now }
        ensures decides { IsTrue result ↔ Confused self.now left.now right.now }
    {
        left == right || self.declares(left, right)
    }
}
