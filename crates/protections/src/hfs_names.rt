//! The protection for HFS+: characters that it passes over do not count.
ghost use Rattle.std.specs.Prelude.{◌≡◌, ℕ, ◌==◌, List, [], Some, Option, slice_index, ◌↔◌};
ghost use Rattle.std.specs.Str.{byte};
ghost use Rattle.protections.specs.Keys.{is_passed_over, hfs_key};
ghost use Rattle.protections.specs.Names.{git, modules};
ghost use Rattle.protections.specs.declared.rules.Mode.TheVariants.{Symlink};
ghost use Rattle.protections.specs.Rules.{numbered, hfs_rule};
ghost use Rattle.protections.specs.BoundLemmas.{hfs_bounded};
ghost use Rattle.protections.specs.EndLemmas.{none_trimmed};

use crate::keys::{Keyed, small};
use crate::rules::{Mode, Protection, Verdict, verdict_by_key};
use characters::take_part;

/// Refuses what HFS+ takes for `.git`, and for `.gitmodules` as a link.
/// Its key is the characters without those that HFS+ passes over, A to Z made small.
#[derive(Clone, Copy, PartialEq, Eq, Debug)]
pub struct Hfs;

// Whether HFS+ passes over the character.
fn passes_over(number: u32) -> bool
    ensures { result ≡ is_passed_over number }
{
    matches!(number, 0x200C..=0x200F | 0x202A..=0x202E | 0x206A..=0x206F | 0xFEFF)
}

impl Keyed for Hfs {
    ghost key = { λ _ s. hfs_key s };

    ghost yielded = { λ _ s. hfs_key s };

    ghost ignored_at_end = { λ _. [] };

    ghost key_of_yielded = { λ p s. none_trimmed (hfs_key s) };

    ghost bounded = { λ p s h. hfs_bounded s };

    // The rest is the caller's, and `Characters` keeps its own to itself, so the loop takes the parts off by hand.
    fn advance(&self, rest: &mut &[u8]) -> Option<u32> {
        while let Some(part) = take_part(rest) {
            let number = part.code_point();
            if !passes_over(number) {
                return Some(small(number));
            }
        }
        None
    }

    fn is_ignored_at_end(&self, _number: u32) -> bool {
        false
    }
}

// Whether the key begins with a dot, as the names do that are refused. It is asked first, since without it the check of a
// component of one byte takes a third longer.
fn begins_with_dot(component: &[u8]) -> bool
    ensures { result ≡ (slice_index (hfs_key component.now) 0 == byte ".") }
{
    // Not by a `Cursor`: the borrow checker does not cover one whose protection is named and has its key by one of several impls.
    let mut rest = component;
    Hfs.advance(&mut rest) == Some(u32::from(b'.'))
}

impl Protection for Hfs {
    ghost verdict_of = { λ _ s mode. hfs_rule s mode };

    #[tactic(auto, unfolding(crate::specs::Rules::hfs_rule))]
    fn verdict(&self, component: &[u8], mode: Option<Mode>) -> Option<Verdict>
        ensures value { numbered result ≡ hfs_rule component.now mode }
        ensures verdicts { (s : List ℕ) (m : Option Mode)
            → ⟦<Hfs as Protection>⟧.verdict_of self.now s m ≡ hfs_rule s m }
        ensures key { (s : List ℕ) → ⟦<Hfs as Keyed>⟧.key self.now s ≡ hfs_key s }
        ensures git { (numbered result ≡ Some 26) ↔ (hfs_key component.now ≡ git) }
        ensures link { (numbered result ≡ Some 27)
            ↔ (mode ≡ Some Symlink) × (hfs_key component.now ≡ modules) }
    {
        if !begins_with_dot(component) {
            return None;
        }
        verdict_by_key(self, component, mode)
    }
}
