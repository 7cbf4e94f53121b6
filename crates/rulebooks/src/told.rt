//! What the refusal of a rulebook says, in plain words.
ghost use Rattle.std.specs.Prelude.{◌≡◌, Some};
ghost use Rattle.rulebooks.specs.Words.{carried_by, words_of};

use super::{Refusal, RulebookFault};
use std::fmt;
use words::{Carried, Sentence};

impl Refusal {
    // What the value stands for.
    fn carried(&self) -> Carried
        ensures { result ≡ carried_by self.now.number self.now.value }
    {
        match self.number {
            1 => u8::try_from(self.value).map_or(Carried::Nothing, Carried::Byte),
            21 | 28 => Carried::Component(self.value),
            _ => Carried::Nothing,
        }
    }
}

/// The sentence of the refusal: it names the invalid byte, or the index of the component.
impl fmt::Display for Refusal {
    ghost output = { λ r. Some (words_of r) };

    fn fmt<W: fmt::Write>(&self, f: &mut fmt::Formatter<W>) -> fmt::Result {
        let sentence = Sentence {
            text: words::text(self.number),
            carried: self.carried(),
        };
        sentence.fmt(f)
    }
}

impl std::error::Error for Refusal {}

/// The sentence of the refusal. The kind of the rulebook is not named.
impl fmt::Display for RulebookFault {
    ghost output = { λ r. Some (words_of r.refusal) };

    fn fmt<W: fmt::Write>(&self, f: &mut fmt::Formatter<W>) -> fmt::Result {
        self.refusal.fmt(f)
    }
}

impl std::error::Error for RulebookFault {}
