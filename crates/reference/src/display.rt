//! What each error of a reference name says, in plain words.
ghost use Rattle.std.specs.Prelude.{◌≡◌, Some};
ghost use Rattle.tag.specs.Words.{words_of};
ghost use Rattle.reference.specs.Errors.{refusal};

use super::Error;
use std::fmt;
use words::{Carried, Sentence};

/// The sentence of the refusal; that of an invalid byte names it.
impl fmt::Display for Error<'_> {
    ghost output = { λ e. Some (words_of (refusal e)) };

    fn fmt<W: fmt::Write>(&self, f: &mut fmt::Formatter<W>) -> fmt::Result {
        let carried = match self {
            Error::InvalidByte(byte) => Carried::Byte(*byte),
            _ => Carried::Nothing,
        };
        let sentence = Sentence {
            text: words::text(self.number()),
            carried,
        };
        sentence.fmt(f)
    }
}

impl std::error::Error for Error<'_> {}
