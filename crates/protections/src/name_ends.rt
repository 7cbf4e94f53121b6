//! Fixed names at the front of a component, where fillers after the name do not count.
ghost use Rattle.std.specs.Prelude.{◌≡◌, ℕ, true, false, List, [], map, IsTrue, bytes_eq};
ghost use Rattle.std.specs.Char.{to_ascii_lowercase, char_set_contains};
ghost use Rattle.std.specs.List.{AllByRecursion, list_all};
ghost use Rattle.std.specs.Option.{option_map};
ghost use Rattle.protections.specs.Names.{is_listed};
ghost use Rattle.protections.specs.NameEnds.{ended_key, is_ended_key, nothing_follows, after_block};

use crate::keys::named;
use crate::small_letters::Lowered;

// Where a name ends: fillers after it do not count, up to the end or to a stop.
pub(crate) trait NameEnds {
    ghost stops: { List ℕ };

    ghost fillers: { List ℕ };

    // Functions, and no constants: a constant that borrows bytes, tried, cannot be said equal to a ghost, since the ghost
    // would have to name the place of the bytes.
    fn is_stop(&self, byte: u8) -> bool
        ensures { result ≡ char_set_contains stops byte };

    fn is_filler(&self, byte: u8) -> bool
        ensures { result ≡ char_set_contains fillers byte };

    // The three laws hold of each set by computing, so each impl proves them in a word: a lemma would be no shorter.
    // No filler is a stop.
    ghost apart: { (b : ℕ)
        → char_set_contains fillers b ≡ true → char_set_contains stops b ≡ false };

    // Making a byte small takes it neither into the stops nor out of them.
    ghost stops_ignore_case: { (b : ℕ)
        → char_set_contains stops (to_ascii_lowercase b) ≡ char_set_contains stops b };

    // Nor the fillers.
    ghost fillers_ignore_case: { (b : ℕ)
        → char_set_contains fillers (to_ascii_lowercase b) ≡ char_set_contains fillers b };

    // Whether all bytes are fillers. The loop has no early exit, so that it reads many bytes at a time. A `fold` with `&` would
    // be no shorter in all: its proof has to follow the runs of the iterator, where the loop has an invariant of a line.
    final fn all_fillers(&self, bytes: &[u8]) -> bool
        ensures { result ≡ list_all (char_set_contains fillers) bytes.now }
    {
        let mut all = true;
        for byte in bytes {
            all &= self.is_filler(*byte);
        }
        all
    }

    // What is left after the first N bytes, if these are fillers.
    final fn past_block<'a, const N: usize>(&self, bytes: &'a [u8]) -> Option<&'a [u8]>
        ensures { option_map (λ rest. rest.now) result ≡ after_block fillers N bytes.now }
    {
        match bytes.split_at_checked(N) {
            Some((block, rest)) if self.all_fillers(block) => Some(rest),
            _ => None,
        }
    }

    // What is left after blocks of 16 fillers and then one of four. A block is tested whole, so that the test reads many bytes at a
    // time. Without the blocks, tried, a device with spaces after it takes up to 1.3 times the ported crate's time.
    final fn past_blocks<'a>(&self, bytes: &'a [u8]) -> &'a [u8]
        ensures { bytes_eq (ended_key stops fillers result.now) []
            ≡ bytes_eq (ended_key stops fillers bytes.now) [] }
    {
        let mut rest = bytes;
        while let Some(after) = self.past_block::<16>(rest) {
            rest = after;
        }
        self.past_block::<4>(rest).unwrap_or(rest)
    }

    // Whether the bytes are fillers up to the end or to a stop.
    final fn only_fillers(&self, bytes: &[u8]) -> bool
        ensures { result ≡ bytes_eq (ended_key stops fillers bytes.now) [] }
    {
        self.past_blocks(bytes)
            .iter()
            .find(|byte| !self.is_filler(**byte))
            .is_none_or(|byte| self.is_stop(*byte))
    }

    // What follows the name, if the component begins with it, its letters in any case.
    final fn past_name<'a>(&self, component: &'a [u8], name: &[u8]) -> Option<&'a [u8]>
        requires { IsTrue (is_ended_key stops fillers name.now) }
        ensures { nothing_follows stops fillers result
            ≡ bytes_eq (ended_key stops fillers component.now) name.now }
    {
        match component.split_at_checked(name.len()) {
            Some((front, rest)) if named(&Lowered, front, name) => Some(rest),
            _ => None,
        }
    }

    // Whether the component is the name, its letters in any case, and then only fillers.
    final fn is_named(&self, component: &[u8], name: &[u8]) -> bool
        requires { IsTrue (is_ended_key stops fillers name.now) }
        ensures { result ≡ bytes_eq (ended_key stops fillers component.now) name.now }
    {
        self.past_name(component, name)
            .is_some_and(|rest| self.only_fillers(rest))
    }

    // Whether the component is one of the names, its letters in any case, and then only fillers.
    final fn is_named_among(&self, component: &[u8], names: &[&[u8]]) -> bool
        requires { AllByRecursion (λ n. IsTrue (is_ended_key stops fillers n))
            (map (λ x. x.now) names.now) }
        ensures { result
            ≡ is_listed (map (λ x. x.now) names.now) (ended_key stops fillers component.now) }
    {
        names.iter().any(|name| self.is_named(component, name))
    }
}
