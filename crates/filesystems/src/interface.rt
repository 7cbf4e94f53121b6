//! What a file system is: a verdict, a relation "lie together" between components, and keys, under two laws.
ghost use Rattle.std.specs.Prelude.{◌≡◌, ℕ, Bool, true, List, [], Option, ◌≢◌, Contains};
ghost use Rattle.protections.specs.Rules.{numbered};
ghost use Rattle.filesystems.specs.Keys.{Key};

use protections::{Mode, Verdict};

/// A file system: which components it refuses, and which it cannot keep apart.
pub trait FileSystem {
    ghost use Rattle.protections.specs.declared.rules.Mode.{Mode};

    // The number of the verdict on a component and its mode, if there is one.
    ghost verdict_of: { Self → List ℕ → Option Mode → Option ℕ };

    // Whether two components lie together.
    ghost together: { Self → List ℕ → List ℕ → Bool };

    // The keys that components are compared by.
    ghost keys: { Self → List Key };

    /// The verdict on a component, if it is refused. An Option, and the mode is always passed: a fixed form, docs/DECISIONS.md.
    fn verdict(&self, component: &[u8], mode: Option<Mode>) -> Option<Verdict>
        ensures { numbered result ≡ verdict_of self.now component.now mode };

    // Two components, or two names, stand side by side wherever they are compared: no one value has both.
    /// Whether the two components lie together.
    fn lie_together(&self, left: &[u8], right: &[u8]) -> bool
        ensures { result ≡ together self.now left.now right.now };

    // First law: if a lies together with b, then b with a.
    ghost symmetric: { (f : Self) (a b : List ℕ) → together f a b ≡ true → together f b a ≡ true };

    // Second law: there is at least one key, and components equal under any of the keys lie together.
    ghost equal_keys_together: { (f : Self) → (keys f ≢ [])
        × ((key : Key) (a b : List ℕ) → Contains (keys f) key → key a ≡ key b
        → together f a b ≡ true) };
}
