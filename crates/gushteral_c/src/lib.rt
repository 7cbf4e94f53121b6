//! The static library for C and Rust: every exported call of Gushteral, on numbers and byte slices.
#![tactic(auto)]

mod answers;
mod batch;
mod names;
mod nulls;
mod refusals;
