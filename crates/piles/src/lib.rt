//! Piles of protections that are chosen when a program runs.
#![tactic(auto)]

mod any_protection;
mod chosen_pile;
mod refusal;
#[cfg(test)]
mod tests;

pub use any_protection::AnyProtection;
pub use chosen_pile::{ChosenPile, MOST_LAYERS};
pub use refusal::PileError;
