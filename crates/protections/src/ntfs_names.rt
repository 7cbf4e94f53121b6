//! The protection for NTFS: streams, spaces and dots at the end, and short names.
ghost use Rattle.std.specs.Prelude.{◌≡◌, ℕ, ◌≤◌, List, Some, Option, ◌||◌, length, codes, ◌↔◌, IsTrue, Contains};
ghost use Rattle.protections.specs.Keys.{lowered, until_any, ntfs_key};
ghost use Rattle.protections.specs.Names.{has_digits, short_at, short_name, ShortName, ntfs_git, ntfs_modules, is_listed};
ghost use Rattle.std.specs.List.{list_any};
ghost use Rattle.protections.specs.Rules.{numbered, ntfs_rule};
ghost use Rattle.protections.specs.BoundLemmas.{bytes_bounded, ntfs_bounded};
ghost use Rattle.protections.specs.EndLemmas.{ntfs_trimmed};
ghost use Rattle.std.proofs.Common.{arith};
ghost use Rattle.std.proofs.lemmas.Bool.Decides.{nat_tests};

use crate::first_bytes::take_small;
use crate::keys::{Keyed, named};
use crate::name_ends::NameEnds;
use crate::rules::{Mode, Protection, Verdict, git_verdict, is_link};
use crate::small_letters::Lowered;

/// Refuses what NTFS takes for `.git`, and for `.gitmodules` as a link, short names too.
/// Its key is the bytes before the first `:`, without spaces and dots at their end, A to Z made small.
#[derive(Clone, Copy, PartialEq, Eq, Debug)]
pub struct Ntfs;

const GIT: [&[u8]; 2] = [b".git", b"git~1"];

const MODULES: [&[u8]; 5] = [
    b".gitmodules",
    b"gitmod~1",
    b"gitmod~2",
    b"gitmod~3",
    b"gitmod~4",
];

impl Keyed for Ntfs {
    ghost key = { λ _ s. ntfs_key s };

    ghost yielded = { λ _ s. lowered (until_any (codes ":") s) };

    ghost ignored_at_end = { λ _. codes " ." };

    ghost key_of_yielded = { λ p s. ntfs_trimmed s };

    ghost bounded = { λ p s h. ntfs_bounded s (bytes_bounded s h) };

    fn advance(&self, rest: &mut &[u8]) -> Option<u32> {
        match rest {
            [b':', ..] => None,
            _ => take_small(rest),
        }
    }

    fn is_ignored_at_end(&self, number: u32) -> bool {
        matches!(number, 0x20 | 0x2E)
    }
}

impl NameEnds for Ntfs {
    ghost stops = { codes ":" };

    ghost fillers = { codes " ." };

    ghost apart = { λ b h. Prim.grind (arith, nat_tests) };

    ghost stops_ignore_case = { λ b. Prim.grind (arith, nat_tests) };

    ghost fillers_ignore_case = { λ b. Prim.grind (arith, nat_tests) };

    fn is_stop(&self, byte: u8) -> bool {
        byte == b':'
    }

    fn is_filler(&self, byte: u8) -> bool {
        matches!(byte, b' ' | b'.')
    }
}

// Whether the bytes are a tilde, a digit 1 to 9 and `more` digits.
fn is_numbered(bytes: &[u8], more: usize) -> bool
    ensures { result ≡ has_digits more bytes.now }
{
    match bytes {
        [b'~', b'1'..=b'9', digits @ ..] => {
            digits.len() == more && digits.iter().all(u8::is_ascii_digit)
        }
        _ => false,
    }
}

// Whether the name is the first `kept` bytes of `gi7eba` and then numbered, so that it has eight bytes.
fn is_short_at(name: &[u8], kept: usize) -> bool
    requires { kept ≤ 6 }
    ensures { result ≡ short_at (lowered name.now) kept }
{
    name.split_at_checked(kept).is_some_and(|(front, back)| {
        is_numbered(back, 6 - kept) && named(&Lowered, front, &b"gi7eba"[..kept])
    })
}

// Whether the name is a short name of `.gitmodules`.
fn is_short(name: &[u8]) -> bool
    ensures { result ≡ short_name (lowered name.now) }
{
    (0..7).any(|kept| is_short_at(name, kept))
}

// Whether NTFS takes the component for a short name of `.gitmodules`.
fn is_short_component(component: &[u8]) -> bool
    ensures { result ≡ short_name (ntfs_key component.now) }
{
    component
        .split_at_checked(8)
        .is_some_and(|(front, rest)| is_short(front) && Ntfs.only_fillers(rest))
}

// Whether NTFS takes the component for `.gitmodules`.
#[tactic(auto, unfolding(crate::specs::NameEnds::ended_key, crate::specs::Keys::ntfs_key))]
fn is_modules(component: &[u8]) -> bool
    ensures { result
        ≡ (is_listed ntfs_modules (ntfs_key component.now) || short_name (ntfs_key component.now)) }
{
    Ntfs.is_named_among(component, &MODULES) || is_short_component(component)
}

impl Protection for Ntfs {
    ghost verdict_of = { λ _ s mode. ntfs_rule s mode };

    #[tactic(auto, unfolding(crate::specs::Rules::ntfs_rule, crate::specs::NameEnds::ended_key, crate::specs::Keys::ntfs_key))]
    fn verdict(&self, component: &[u8], mode: Option<Mode>) -> Option<Verdict>
        ensures value { numbered result ≡ ntfs_rule component.now mode }
        ensures verdicts { (s : List ℕ) (m : Option Mode)
            → ⟦<Ntfs as Protection>⟧.verdict_of self.now s m ≡ ntfs_rule s m }
        ensures key { (s : List ℕ) → ⟦<Ntfs as Keyed>⟧.key self.now s ≡ ntfs_key s }
        ensures git { (numbered result ≡ Some 26) ↔ Contains ntfs_git (ntfs_key component.now) }
        ensures short_names { IsTrue (short_name (ntfs_key component.now))
            ↔ ShortName (ntfs_key component.now) }
    {
        let modules = is_link(mode) && is_modules(component);
        git_verdict(self.is_named_among(component, &GIT), modules)
    }
}
