//! The questions to a register, which alter nothing.
ghost use Rattle.std.specs.Prelude.{◌≡◌, ◌<◌, ◌≤◌, length, IfOk, MatchResult};
ghost use Rattle.std.specs.Option.{option_map};
ghost use Rattle.std.specs.List.{slice_get};
ghost use Rattle.register_model.specs.Calls.{first_meeting};
ghost use Rattle.register_model.specs.Calls.Fault.{by_state};
ghost use Rattle.register_model.specs.Entries.{place_of};
ghost use Rattle.register_model.specs.Reasons.{IsFirstMeeting, StandsAt};
ghost use Rattle.register_model.specs.declared.TheConstants.{LONGEST_NAME};
ghost use Rattle.register.specs.Faults.{fault_in};
ghost use Rattle.register.specs.Registers.{entries_in};
ghost use Rattle.register.specs.Rows.{entry_of};
ghost use Rattle.register.specs.Shown.{shown};

use crate::Register;
use crate::checks::check_length;
use crate::faults::Fault;
use crate::table::Row;
use filesystems::FileSystem;
use protections::Mode;
use rulebooks::Rulebook;

/// An entry: a name, its number and its mode.
#[derive(Clone, Copy, Debug, PartialEq, Eq)]
pub struct Entry<'a> {
    pub name: &'a [u8],
    pub number: u32,
    pub mode: Option<Mode>,
}

impl<'a> From<&'a Row> for Entry<'a> {
    ghost from_gives = { λ row entry. shown entry ≡ entry_of row.now };

    fn from(row: &'a Row) -> Entry<'a> {
        Entry {
            name: row.name.as_slice(),
            number: row.number,
            mode: row.mode,
        }
    }
}

impl<R: Rulebook, F: FileSystem> Register<R, F> {
    /// How many entries there are.
    pub fn count(&self) -> usize
        ensures { result ≡ length (entries_in self.now) }
    {
        self.table.count()
    }

    /// The place of a name, if it is kept, and none exactly where it is not.
    pub fn find(&self, name: &[u8]) -> Option<usize>
        ensures answer { result ≡ place_of name.now (entries_in self.now) }
        ensures words { StandsAt name.now (entries_in self.now) result }
    {
        self.table.place_of(name)
    }

    /// The place of the first kept name that meets this one, if there is one; 32 for a name that is too long.
    pub fn meeting(&self, name: &[u8]) -> Result<Option<usize>, Fault>
        ensures answer { MatchResult result
            (λ place.
            (length name.now ≤ LONGEST_NAME)
            × (place ≡ first_meeting (F.FileSystem.together self.now.files) None name.now
            (entries_in self.now)))
            (λ fault. (LONGEST_NAME < length name.now) × (fault_in fault ≡ by_state 32 0)) }
        ensures words { IfOk result
            (IsFirstMeeting (F.FileSystem.together self.now.files) None name.now
            (entries_in self.now)) }
    {
        check_length(name)?;
        Ok(self.table.first_meeting(&self.files, name, None))
    }

    /// The entry at a place, if there is one.
    pub fn entry(&self, place: usize) -> Option<Entry<'_>>
        ensures { option_map shown result ≡ slice_get (entries_in self.now) place }
    {
        self.table.row(place).map(Entry::from)
    }
}
