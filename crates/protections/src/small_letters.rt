//! Components with A to Z made small.
ghost use Rattle.std.specs.Prelude.{[]};
ghost use Rattle.protections.specs.Keys.{lowered};
ghost use Rattle.protections.specs.BoundLemmas.{bytes_bounded, lowered_bounded};
ghost use Rattle.protections.specs.EndLemmas.{none_trimmed};

use crate::first_bytes::take_small;
use crate::keys::Keyed;

// The bytes with A to Z made small. NTFS takes the same step: a trait for one line would be longer.
#[derive(Clone, Copy)]
pub(crate) struct Lowered;

impl Keyed for Lowered {
    ghost key = { λ _ s. lowered s };

    ghost yielded = { λ _ s. lowered s };

    ghost ignored_at_end = { λ _. [] };

    ghost key_of_yielded = { λ p s. none_trimmed (lowered s) };

    ghost bounded = { λ p s h. lowered_bounded s (bytes_bounded s h) };

    fn advance(&self, rest: &mut &[u8]) -> Option<u32> {
        take_small(rest)
    }

    fn is_ignored_at_end(&self, _number: u32) -> bool {
        false
    }
}
