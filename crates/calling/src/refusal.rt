//! Why a campus has no file system.
ghost use Rattle.std.specs.Prelude.{◌≡◌, Some};
ghost use Rattle.calling.specs.declared.refusal.CampusError.TheVariants.{Pair, Pile};
ghost use Rattle.calling.specs.Words.{words_of};

use filesystems::DeclareError;
use piles::PileError;
use std::fmt;

/// Why a campus has no file system.
#[derive(Clone, Copy, Debug, PartialEq, Eq)]
pub enum CampusError {
    /// A pair of names is not declared.
    Pair(DeclareError),
    /// There is no pile.
    Pile(PileError),
}

/// The words of the refusal that it holds.
impl fmt::Display for CampusError {
    ghost output = { λ error. Some (words_of error) };

    fn fmt<W: fmt::Write>(&self, f: &mut fmt::Formatter<W>) -> fmt::Result {
        match self {
            CampusError::Pair(error) => error.fmt(f),
            CampusError::Pile(error) => error.fmt(f),
        }
    }
}

impl std::error::Error for CampusError {}

impl From<DeclareError> for CampusError {
    ghost from_gives = { λ error result. result ≡ Pair error };

    fn from(error: DeclareError) -> CampusError {
        CampusError::Pair(error)
    }
}

impl From<PileError> for CampusError {
    ghost from_gives = { λ error result. result ≡ Pile error };

    fn from(error: PileError) -> CampusError {
        CampusError::Pile(error)
    }
}
