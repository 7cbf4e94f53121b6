//! The protection for Windows devices: their names, and characters that Windows does not allow.
ghost use Rattle.std.specs.Prelude.{◌≡◌, ℕ, ◌||◌, List, [], ◌∷◌, Some, Option, codes, ◌↔◌, ◌⊎◌, IsTrue, Contains};
ghost use Rattle.protections.specs.Names.{devices, is_listed};
ghost use Rattle.protections.specs.NameEnds.{continuations, ended_key, nothing_follows, is_one_digit};
ghost use Rattle.protections.specs.Keys.{device_key};
ghost use Rattle.protections.specs.Rules.{is_device, is_illegal_byte, has_illegal, ends_illegally, numbered, device_rule};
ghost use Rattle.protections.specs.BoundLemmas.{bytes_bounded};
ghost use Rattle.protections.specs.EndLemmas.{none_trimmed};
ghost use Rattle.std.proofs.Common.{arith};
ghost use Rattle.std.proofs.lemmas.Bool.Decides.{nat_tests};

use crate::first_bytes::take_byte;
use crate::keys::Keyed;
use crate::name_ends::NameEnds;
use crate::rules::{Mode, Protection, Verdict};

/// Refuses the names of devices, and characters that Windows does not allow. Its key is the bytes.
#[derive(Clone, Copy, PartialEq, Eq, Debug)]
pub struct WindowsDevices;

impl Keyed for WindowsDevices {
    ghost key = { λ _ s. s };

    ghost yielded = { λ _ s. s };

    ghost ignored_at_end = { λ _. [] };

    ghost key_of_yielded = { λ p s. none_trimmed s };

    ghost bounded = { λ p s h. bytes_bounded s h };

    fn advance(&self, rest: &mut &[u8]) -> Option<u32> {
        take_byte(rest)
    }

    fn is_ignored_at_end(&self, _number: u32) -> bool {
        false
    }
}

impl NameEnds for WindowsDevices {
    ghost stops = { codes ".:" };

    ghost fillers = { codes " " };

    ghost apart = { λ b h. Prim.grind (arith, nat_tests) };

    ghost stops_ignore_case = { λ b. Prim.grind (arith, nat_tests) };

    ghost fillers_ignore_case = { λ b. Prim.grind (arith, nat_tests) };

    fn is_stop(&self, byte: u8) -> bool {
        matches!(byte, b'.' | b':')
    }

    fn is_filler(&self, byte: u8) -> bool {
        byte == b' '
    }
}

// What follows the name of a device that begins with `con`, of which `rest` is what follows these letters.
fn past_console(rest: &[u8]) -> Option<&[u8]>
    ensures { nothing_follows (codes ".:") (codes " ") result
        ≡ is_listed (continuations devices (codes "con"))
        (ended_key (codes ".:") (codes " ") rest.now) }
{
    match rest {
        [b'i' | b'I', ..] => WindowsDevices.past_name(rest, b"in$"),
        [b'o' | b'O', ..] => WindowsDevices.past_name(rest, b"out$"),
        _ => Some(rest),
    }
}

// What follows the first byte, if it is a digit from the given one on.
fn past_digit(rest: &[u8], least: u8) -> Option<&[u8]>
    ensures { nothing_follows (codes ".:") (codes " ") result ≡ is_one_digit least rest.now }
{
    match rest {
        [digit, tail @ ..] if (least..=b'9').contains(digit) => Some(tail),
        _ => None,
    }
}

// What follows the name of a device that begins with the three letters, of which `rest` is what follows them.
fn past_device(letters: [u8; 3], rest: &[u8]) -> Option<&[u8]>
    ensures { nothing_follows (codes ".:") (codes " ") result
        ≡ is_listed (continuations devices letters)
        (ended_key (codes ".:") (codes " ") rest.now) }
{
    match &letters {
        b"aux" | b"nul" | b"prn" => Some(rest),
        b"con" => past_console(rest),
        b"com" => past_digit(rest, b'1'),
        b"lpt" => past_digit(rest, b'0'),
        _ => None,
    }
}

/// Whether the component's device key is one of the listed names.
pub fn names_device(component: &[u8]) -> bool
    ensures value { result ≡ is_device component.now }
    ensures decides { IsTrue result ↔ Contains devices (device_key component.now) }
{
    let [a, b, c, rest @ ..] = component else {
        return false;
    };
    let letters = [
        a.to_ascii_lowercase(),
        b.to_ascii_lowercase(),
        c.to_ascii_lowercase(),
    ];
    past_device(letters, rest).is_some_and(|tail| WindowsDevices.only_fillers(tail))
}

// Whether the byte is below 0x20 or one of the marks that Windows does not allow.
fn is_illegal(byte: u8) -> bool
    ensures { result ≡ is_illegal_byte byte }
{
    matches!(
        byte,
        0..=0x1f | b':' | b'<' | b'>' | b'"' | b'|' | b'?' | b'*'
    )
}

// Whether a byte anywhere is not allowed. A `for` over the bytes is a fixed form, docs/DECISIONS.md, and the loop has no
// early exit, so that it reads many bytes at a time.
#[tactic(auto, unfolding(crate::specs::Rules::has_illegal))]
fn has_illegal_byte(component: &[u8]) -> bool
    ensures { result ≡ has_illegal component.now }
{
    let mut found = false;
    for byte in component {
        found |= is_illegal(*byte);
    }
    found
}

// Whether the last byte is a dot or a space.
#[tactic(auto, unfolding(crate::specs::Rules::ends_illegally))]
fn ends_in_dot_or_space(component: &[u8]) -> bool
    ensures { result ≡ ends_illegally component.now }
{
    matches!(component, [.., b'.' | b' '])
}

// Whether Windows does not allow a byte of the component, or its end.
fn is_illegal_name(component: &[u8]) -> bool
    ensures { result ≡ (has_illegal component.now || ends_illegally component.now) }
{
    has_illegal_byte(component) || ends_in_dot_or_space(component)
}

impl Protection for WindowsDevices {
    ghost verdict_of = { λ _ s mode. device_rule s mode };

    #[tactic(auto, unfolding(crate::specs::Rules::device_rule))]
    fn verdict(&self, component: &[u8], mode: Option<Mode>) -> Option<Verdict>
        ensures value { numbered result ≡ device_rule component.now mode }
        ensures verdicts { (s : List ℕ) (m : Option Mode)
            → ⟦<WindowsDevices as Protection>⟧.verdict_of self.now s m ≡ device_rule s m }
        ensures key { (s : List ℕ) → ⟦<WindowsDevices as Keyed>⟧.key self.now s ≡ s }
        ensures device { (numbered result ≡ Some 24) ↔ Contains devices (device_key component.now) }
        ensures illegal { (numbered result ≡ Some 25)
            ↔ (Contains devices (device_key component.now) → ⊥)
            × (IsTrue (has_illegal component.now) ⊎ IsTrue (ends_illegally component.now)) }
    {
        if names_device(component) {
            return Some(Verdict::WindowsReservedName);
        }
        is_illegal_name(component).then_some(Verdict::WindowsIllegalCharacter)
    }
}
