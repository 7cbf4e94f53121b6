//! The register of names: entries, of which no two names meet on the register's file system.
#![tactic(auto)]

ghost use Rattle.register_model.specs.Claim.{Holds};
ghost use Rattle.register_model.specs.HoldsLemma.{Holds-prop};
ghost use Rattle.register.specs.Meanings.{meaning_of, state_with, unmended};

use filesystems::FileSystem;
use rulebooks::Rulebook;
use table::Table;

mod calls;
mod checks;
mod entries;
pub mod faults;
pub mod meeting;
mod offers;
mod questions;
mod table;

pub use entries::Entries;
pub use questions::Entry;

/// Entries, each a name of at most 255 bytes, a number and a mode, in ascending order of the bytes of their names. The names
/// are those that the rulebook allows and the file system passes, and no two of them meet.
// Its invariant is what holds of a register whatever calls led to it; the term after `by` shows that this has one proof at most.
#[derive(Drop)]
pub struct Register<R: Rulebook, F: FileSystem> {
    rules: R,
    files: F,
    table: Table,
    pub ghost holds: { Holds (meaning_of R.Rulebook unmended F.FileSystem files)
        (state_with table) } by { Holds-prop
            (meaning_of R.Rulebook unmended F.FileSystem files) (state_with table) },
}
