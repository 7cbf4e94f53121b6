//! The protection for Windows names: separators, and the prefix of a drive.
ghost use Rattle.std.specs.Prelude.{◌≡◌, ℕ, ◌==◌, List, [], Some, Option, ◌↔◌, Contains, slice_index};
ghost use Rattle.std.specs.Str.{byte};
ghost use Rattle.characters.specs.Reader.{code_points};
ghost use Rattle.protections.specs.Rules.{numbered, windows_rule};
ghost use Rattle.protections.specs.BoundLemmas.{bytes_bounded};
ghost use Rattle.protections.specs.EndLemmas.{none_trimmed};

use crate::first_bytes::take_byte;
use crate::keys::Keyed;
use crate::rules::{Mode, Protection, Verdict};
use characters::Characters;

/// Refuses what Windows reads as a separator or as the prefix of a drive. Its key is the bytes.
#[derive(Clone, Copy, PartialEq, Eq, Debug)]
pub struct WindowsNames;

impl Keyed for WindowsNames {
    ghost key = { λ _ s. s };

    ghost yielded = { λ _ s. s };

    ghost ignored_at_end = { λ _. [] };

    ghost key_of_yielded = { λ p s. none_trimmed s };

    ghost bounded = { λ p s h. bytes_bounded s h };

    fn advance(&self, rest: &mut &[u8]) -> Option<u32> {
        take_byte(rest)
    }

    fn is_ignored_at_end(&self, _number: u32) -> bool {
        false
    }
}

// Whether the second character is a colon.
fn has_prefix(component: &[u8]) -> bool
    ensures { result ≡ (slice_index (code_points component.now) 1 == byte ":") }
{
    Characters::of(component)
        .nth(1)
        .is_some_and(|second| second.code_point() == 0x3A)
}

impl Protection for WindowsNames {
    ghost verdict_of = { λ _ s mode. windows_rule s mode };

    #[tactic(auto, unfolding(crate::specs::Rules::windows_rule))]
    fn verdict(&self, component: &[u8], mode: Option<Mode>) -> Option<Verdict>
        ensures value { numbered result ≡ windows_rule component.now mode }
        ensures verdicts { (s : List ℕ) (m : Option Mode)
            → ⟦<WindowsNames as Protection>⟧.verdict_of self.now s m ≡ windows_rule s m }
        ensures key { (s : List ℕ) → ⟦<WindowsNames as Keyed>⟧.key self.now s ≡ s }
        ensures separator { (numbered result ≡ Some 22) ↔ Contains component.now (byte "\\") }
        ensures drive { (numbered result ≡ Some 23)
            ↔ (slice_index (code_points component.now) 1 ≡ byte ":")
            × (Contains component.now (byte "\\") → ⊥) }
    {
        if component.contains(&b'\\') {
            return Some(Verdict::PathSeparator);
        }
        has_prefix(component).then_some(Verdict::WindowsPathPrefix)
    }
}
