//! Why there is no pile.
ghost use Rattle.std.specs.Prelude.{◌≡◌, Some};
ghost use Rattle.piles.specs.Refusal.{number_of, text_of};

use std::fmt;

/// Why there is no pile.
#[derive(Clone, Copy, PartialEq, Eq, Debug)]
pub enum PileError {
    /// There are more than 16 layers.
    TooManyLayers = 34,
}

impl PileError {
    /// The number of the refusal.
    pub fn number(&self) -> u8
        ensures { result ≡ number_of self.now }
    {
        *self as u8
    }

    /// The refusal in plain words.
    // `Display` writes these, and a contract states them.
    pub fn text(&self) -> &'static str
        ensures { result.now ≡ text_of self.now }
    {
        match *self {
            PileError::TooManyLayers => "a pile has at most 16 layers",
        }
    }
}

impl fmt::Display for PileError {
    ghost output = { λ e. Some (text_of e) };

    fn fmt<W: fmt::Write>(&self, f: &mut fmt::Formatter<W>) -> fmt::Result {
        f.write_str(self.text())
    }
}

impl std::error::Error for PileError {}
