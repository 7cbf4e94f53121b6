//! The entries of a register, one after another.
ghost use Rattle.std.specs.Prelude.{◌≡◌};
ghost use Rattle.std.specs.Iterator.{YieldsFirstBy, item_count};
ghost use Rattle.register.specs.Registers.{entries_in};
ghost use Rattle.register.specs.Shown.{entries_left, shown};

use crate::table::Row;
use crate::{Entry, Register};
use filesystems::FileSystem;
use rulebooks::Rulebook;
use std::slice;

/// The entries of a register that are still to come, in the order of their places.
#[derive(Drop)]
pub struct Entries<'a> {
    rows: slice::Iter<'a, Row>,
}

impl<'a> Iterator for Entries<'a> {
    type Item = Entry<'a>;

    ghost next_gives = { YieldsFirstBy shown entries_left };

    ghost remaining = { item_count entries_left };

    fn next(&mut self) -> Option<Entry<'a>> {
        self.rows.next().map(Entry::from)
    }
}

impl<R: Rulebook, F: FileSystem> Register<R, F> {
    /// The entries, in the order of their places.
    pub fn entries(&self) -> Entries<'_>
        ensures { entries_left result ≡ entries_in self.now }
    {
        Entries {
            rows: self.table.rows(),
        }
    }
}
