//! A table of rows, each a name, a number and a mode, in ascending order of the bytes of their names.
ghost use Rattle.std.specs.Prelude.{◌≡◌, ◌<◌, ◌≤◌, ◌↔◌, [], length, map, IsTrue, remove, slice_get};
ghost use Rattle.std.specs.Option.{option_map};
ghost use Rattle.std.specs.Slice.Iter.{iter_rest};
ghost use Rattle.register_model.specs.Calls.{first_meeting};
ghost use Rattle.register_model.specs.Entries.{place_of, put, slot};
ghost use Rattle.register_model.specs.declared.TheConstants.{CAPACITY};
ghost use Rattle.register.specs.Entries.{renamed};

use arrayvec::ArrayVec;
use filesystems::FileSystem;
use protections::Mode;
use register_model::{CAPACITY, LONGEST_NAME};
use std::marker::Model;
use std::slice;
use tag::components::Components;

/// A name that is not too long.
pub(crate) type Name = ArrayVec<u8, LONGEST_NAME>;

/// A name with its number and mode.
#[derive(Default, Drop)]
pub struct Row {
    pub(crate) name: Name,
    pub(crate) number: u32,
    pub(crate) mode: Option<Mode>,
}

/// At most `CAPACITY` rows, in places from 0. Callers see their entries.
#[derive(Drop)]
pub struct Table {
    rows: ArrayVec<Row, CAPACITY>,
}

impl Model for Table {
    ghost use Rattle.std.specs.Prelude.{map};
    ghost use Rattle.register_model.specs.Calls.{Kept};
    ghost use Rattle.register.specs.Rows.{entry_of};
    ghost use Rattle.register.specs.Entries.{InOrder};

    ghost Value = { Kept };

    ghost view = { λ t. map entry_of t.rows.items };

    ghost invariant = { λ t. InOrder (map entry_of t.rows.items) };
}

impl Table {
    ghost use Rattle.register.specs.Rows.{entry_of};

    /// No rows.
    pub(crate) fn new() -> Table
        ensures { result ≡ [] }
    {
        Table {
            rows: ArrayVec::new(),
        }
    }

    /// How many rows there are.
    pub(crate) fn count(&self) -> usize
        ensures { result ≡ length self.now }
    {
        self.rows.len()
    }

    /// Whether there is no room for another row.
    pub(crate) fn is_full(&self) -> bool
        ensures { IsTrue result ↔ (CAPACITY ≤ length self.now) }
    {
        self.rows.is_full()
    }

    /// The row at a place, if there is one.
    pub(crate) fn row(&self, place: usize) -> Option<&Row>
        ensures { option_map (λ row. entry_of row.now) result ≡ slice_get self.now place }
    {
        self.rows.get(place)
    }

    /// The rows, in the order of their places.
    pub(crate) fn rows(&self) -> slice::Iter<'_, Row>
        ensures { map entry_of (iter_rest result) ≡ self.now }
    {
        self.rows.iter()
    }

    /// How many names come before this one: the place that it has or would have.
    pub(crate) fn slot(&self, name: &[u8]) -> usize
        ensures { result ≡ slot name.now self.now }
    {
        self.rows.partition_point(|row| row.name.as_slice() < name)
    }

    /// The place of the row with this name, if there is one.
    pub(crate) fn place_of(&self, name: &[u8]) -> Option<usize>
        ensures { result ≡ place_of name.now self.now }
    {
        // By `slot`, the one search of the table: a `binary_search_by` would be another, with a proof of its own.
        let place = self.slot(name);
        let row = self.rows.get(place)?;
        (row.name.as_slice() == name).then_some(place)
    }

    /// Puts a row in at the place of its name, which is the answer.
    pub(crate) fn put(&mut self, row: Row) -> usize
        requires { length self.old < CAPACITY }
        ensures place { result ≡ slot row.name.items self.old }
        ensures entries { self.new ≡ put (entry_of row) self.old }
    {
        let place = self.slot(&row.name);
        self.rows.insert(place, row);
        place
    }

    /// Takes the row at a place out.
    pub(crate) fn remove(&mut self, place: usize)
        requires { place < length self.old }
        ensures { self.new ≡ remove self.old place }
    {
        self.rows.remove(place);
    }

    /// Gives the row at a place another name and mode, and moves it to the place of that name, which is the answer. Its number stays.
    pub(crate) fn rename(&mut self, from: usize, name: Name, mode: Option<Mode>) -> usize
        requires { from < length self.old }
        ensures place { result ≡ slot name.items (remove self.old from) }
        ensures entries { self.new
            ≡ put (renamed self.old from name.items mode) (remove self.old from) }
    {
        // The row is lent to be changed: a fixed form, docs/DECISIONS.md.
        let row = &mut self.rows[from];
        row.name = name;
        row.mode = mode;
        let row = self.rows.remove(from);
        self.put(row)
    }

    /// The place of the first kept name that meets the new one; the name `aside` does not count.
    pub(crate) fn first_meeting<F: FileSystem>(
        &self,
        files: &F,
        name: &[u8],
        aside: Option<&[u8]>,
    ) -> Option<usize>
        ensures { result
            ≡ first_meeting (F.FileSystem.together files.now) (option_map (λ x. x.now) aside.entry)
            name.now self.now }
    {
        // A fixed form, docs/DECISIONS.md: a search in nested loops that are left by label. So a loop over the components stands here
        // too, as in `meetings::meets`, but with the kept name always first, since it is short.
        'search: {
            'rows: for (place, row) in self.rows.iter().enumerate() {
                let old = row.name.as_slice();
                if aside == Some(old) {
                    continue 'rows;
                }
                for (x, y) in Components::of(old).zip(Components::of(name)) {
                    if x != y {
                        if files.lie_together(x, y) {
                            break 'search Some(place);
                        }
                        continue 'rows;
                    }
                }
                break 'search Some(place);
            }
            None
        }
    }
}
