//! The command line of the program `gushteral`: which task its words ask for.
#![tactic(auto)]

mod commands;
mod flags;
mod reading;
mod spellings;
#[cfg(test)]
mod tests;

pub use flags::Flags;
pub use reading::{Task, parse};
pub use spellings::{kind_of, layer_of, pair_of};
