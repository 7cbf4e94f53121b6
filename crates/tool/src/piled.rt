//! Whether names meet on a pile that is chosen when a program runs.
ghost use Rattle.std.specs.Prelude.{◌≡◌, ◌≤◌, ◌↔◌, IfOk, IfErr, IsOk, IsTrue, length, map, not, Some};
ghost use Rattle.filesystems.specs.Pairs.{WithinLimits};
ghost use Rattle.meetings.specs.Meeting.{Meets, meet};
ghost use Rattle.tool.specs.Lines.{meet_line};
ghost use Rattle.tool.specs.Setups.{FirstRefused, SetupRefused, number_of, pair_of, setup_text};

use crate::Line;
use filesystems::{DeclareError, DeclaredBottom, FileSystem};
use piles::{AnyProtection, ChosenPile, MOST_LAYERS, PileError};
use std::alloc::{AllocError, Global};
use std::fmt;

/// Why a pile is not made.
#[derive(Clone, Copy, Debug, PartialEq, Eq)]
pub enum SetupError {
    /// A pair is not declared.
    Pair(DeclareError),
    /// The layers make no pile.
    Layers(PileError),
}

impl SetupError {
    /// The number of the refusal: 33 or 44 for a pair, 34 for the layers.
    pub fn number(&self) -> u8
        ensures { result ≡ number_of self.now }
    {
        match self {
            SetupError::Pair(error) => error.number(),
            SetupError::Layers(error) => error.number(),
        }
    }

    /// What the refusal says, in plain words.
    pub fn text(&self) -> &'static str
        ensures { result.now ≡ setup_text self.now }
    {
        match self {
            SetupError::Pair(error) => error.text(),
            SetupError::Layers(error) => error.text(),
        }
    }
}

/// The text of the refusal.
impl fmt::Display for SetupError {
    ghost output = { λ e. Some (setup_text e) };

    fn fmt<W: fmt::Write>(&self, f: &mut fmt::Formatter<W>) -> fmt::Result {
        f.write_str(self.text())
    }
}

impl std::error::Error for SetupError {}

// The bottom on which these pairs are declared, from the left.
fn bottom_with(pairs: &[(&[u8], &[u8])]) -> Result<DeclaredBottom, DeclareError>
    ensures all { IfOk result (λ b. (b ≡ map pair_of pairs.now) × WithinLimits b) }
    ensures first { IfErr result (λ e. FirstRefused (map pair_of pairs.now) e) }
{
    let mut bottom = DeclaredBottom::new();
    for (left, right) in pairs {
        bottom.declare(left, right)?;
    }
    Ok(bottom)
}

/// The pile of these layers, the first on top, over a bottom on which these pairs are declared from the left. The first pair that
/// is not declared decides, by 33 or 44; then 34 where there are more than 16 layers.
pub fn pile(layers: &[AnyProtection], pairs: &[(&[u8], &[u8])]) -> Result<ChosenPile, SetupError>
    ensures parts { IfOk result (λ p. (p.layers ≡ layers.now)
        × (p.bottom ≡ map pair_of pairs.now)) }
    ensures within { IfOk result (λ p. (length layers.now ≤ MOST_LAYERS)
        × WithinLimits (map pair_of pairs.now)) }
    ensures why { IfErr result (λ e. SetupRefused layers.now (map pair_of pairs.now) e) }
{
    let bottom = bottom_with(pairs).map_err(SetupError::Pair)?;
    ChosenPile::new(layers, bottom).map_err(SetupError::Layers)
}

/// Whether two names meet on a file system: `meet` or `apart`.
pub fn meet<F: FileSystem>(
    heap: Global,
    files: &F,
    left: &[u8],
    right: &[u8],
) -> Result<Line, AllocError>
    ensures line { IfOk result (λ l. l.bytes.items
        ≡ meet_line (meet (F.FileSystem.together files.now) left.now right.now)) }
    ensures passed { IfOk result (λ l. l.passed
        ≡ not (meet (F.FileSystem.together files.now) left.now right.now)) }
    ensures words { IfOk result (λ l. IsTrue l.passed
        ↔ ¬ Meets (F.FileSystem.together files.now) left.now right.now) }
{
    let meet = meetings::meets(files, left, right);
    let word = if meet { "meet\n" } else { "apart\n" };
    Ok(Line {
        bytes: format!(in heap; "{word}")?.into_bytes(),
        passed: !meet,
    })
}
