//! The question whether two names meet, by its name in this crate.
pub use meetings::meets;
