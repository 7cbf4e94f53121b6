//! The sentence of a refusal, with what it carries.
ghost use Rattle.std.specs.Prelude.{◌≡◌, Some};
ghost use Rattle.words.specs.Sentences.{sentence};

use std::fmt;

/// What a refusal carries besides its number.
#[derive(Clone, Copy, Debug, PartialEq, Eq)]
pub enum Carried {
    Nothing,
    /// The byte that may not stand in the name.
    Byte(u8),
    /// The index of the component, counted from 0.
    Component(usize),
    /// The place of a kept name, counted from 0.
    Place(usize),
}

/// What a refusal says, with what it carries. `Display` writes it.
#[derive(Clone, Copy, Debug, PartialEq, Eq)]
pub struct Sentence {
    /// The text of the refusal.
    pub text: &'static str,
    pub carried: Carried,
}

impl fmt::Display for Sentence {
    ghost output = { λ s. Some (sentence s.text.now s.carried) };

    fn fmt<W: fmt::Write>(&self, f: &mut fmt::Formatter<W>) -> fmt::Result {
        let text = self.text;
        match self.carried {
            Carried::Nothing => f.write_str(text),
            Carried::Byte(byte) => write!(f, "{text}: 0x{byte:02x}"),
            Carried::Component(index) => write!(f, "component {index}: {text}"),
            Carried::Place(place) => write!(f, "{text}, the one at place {place}"),
        }
    }
}
