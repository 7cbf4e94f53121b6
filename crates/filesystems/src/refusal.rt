//! Why a pair is not declared.
ghost use Rattle.std.specs.Prelude.{◌≡◌, Some};
ghost use Rattle.filesystems.specs.Refusal.{number_of, text_of};

use std::fmt;

/// Why a pair is not declared.
#[derive(Clone, Copy, PartialEq, Eq, Debug)]
pub enum DeclareError {
    ComponentTooLong = 33,
    TooManyPairs = 44,
}

impl DeclareError {
    /// The number of the refusal.
    pub fn number(&self) -> u8
        ensures { result ≡ number_of self.now }
    {
        *self as u8
    }

    /// The refusal in plain words.
    pub fn text(&self) -> &'static str
        ensures { result.now ≡ text_of self.now }
    {
        match *self {
            DeclareError::ComponentTooLong => "a declared name is longer than 32 bytes",
            DeclareError::TooManyPairs => "16 pairs of names are already declared",
        }
    }
}

impl fmt::Display for DeclareError {
    ghost output = { λ e. Some (text_of e) };

    fn fmt<W: fmt::Write>(&self, f: &mut fmt::Formatter<W>) -> fmt::Result {
        f.write_str(self.text())
    }
}

impl std::error::Error for DeclareError {}
