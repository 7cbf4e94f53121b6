//! What the help desk's tool says of a name, a component or a text: each answer as the bytes of a line.
#![tactic(auto)]

mod checks;
mod explained;
mod mended;
mod piled;
mod questions;
#[cfg(test)]
mod tests;

pub use checks::{Kind, check, component};
pub use explained::explain;
pub use mended::mend;
pub use piled::{SetupError, meet, pile};
pub use questions::Question;

/// An answer, of one line or of several.
#[derive(Drop)]
pub struct Line {
    /// The lines, each with its line end.
    pub bytes: Vec<u8>,
    /// Whether nothing was refused, and nothing meets.
    pub passed: bool,
}
