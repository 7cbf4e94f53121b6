//! What refusals say, in plain words: the texts of those of names, by number, and the sentence of any refusal with what it carries.
#![tactic(auto)]

mod names;
mod sentence;

pub use names::{NameRefusal, text};
pub use sentence::{Carried, Sentence};
