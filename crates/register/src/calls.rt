//! The calls that every register has: enter, rename and remove.
ghost use Rattle.std.specs.Prelude.{◌≡◌, ℕ, List};
ghost use Rattle.register_model.specs.Calls.{no_entries};
ghost use Rattle.register_model.specs.Calls.Call.{enter as an_enter, remove as a_remove, rename as a_rename};
ghost use Rattle.register.specs.Registers.{IsMade, state_in};

use crate::Register;
use crate::faults::{Fault, StateFault};
use crate::table::{Row, Table};
use filesystems::FileSystem;
use protections::Mode;
use rulebooks::Rulebook;

// What a text would be mended to does not matter to these calls.
impl<R: Rulebook, F: FileSystem> Register<R, F> {
    /// A register with no entry.
    pub fn new(rules: R, files: F) -> Register<R, F>
        ensures empty { state_in result ≡ no_entries }
        ensures parts { (result.rules ≡ rules) × (result.files ≡ files) }
    {
        Register {
            rules,
            files,
            table: Table::new(),
        }
    }

    /// Puts a name in, with its number and mode, and answers its place. It is refused by 32, then by the rulebook, then by a
    /// verdict on a component, then by 41 where a kept name meets it, then by 42.
    // Three arguments: an `Entry` would be a literal of a struct at each call.
    pub fn enter(&mut self, name: &[u8], number: u32, mode: Option<Mode>) -> Result<usize, Fault>
        ensures { (mended : List ℕ → List ℕ)
            → IsMade mended self.old self.new (an_enter name.now number mode) result }
    {
        let kept = self.checked(name, mode)?;
        self.check_meeting(name, None)?;
        // `put` requires room, which a rename always has: a `put` that answers a Result would be unwrapped there.
        if self.table.is_full() {
            return Err(StateFault::Full.into());
        }
        let place = self.table.put(Row {
            name: kept,
            number,
            mode,
        });
        Ok(place)
    }

    /// Takes a name out and puts another in with its number, and answers the place of the new one. It is refused for the new
    /// name by 32, the rulebook and verdicts, then by 43 where the old name is not kept, then by 41 where a kept name other
    /// than the old one meets the new one.
    pub fn rename(&mut self, old: &[u8], new: &[u8], mode: Option<Mode>) -> Result<usize, Fault>
        ensures { (mended : List ℕ → List ℕ)
            → IsMade mended self.old self.new (a_rename old.now new.now mode) result }
    {
        let kept = self.checked(new, mode)?;
        let from = self.table.place_of(old).ok_or(StateFault::NotKept)?;
        self.check_meeting(new, Some(old))?;
        Ok(self.table.rename(from, kept, mode))
    }

    /// Takes a name out, and answers the place that it had. It is refused by 43 where the name is not kept.
    pub fn remove(&mut self, name: &[u8]) -> Result<usize, Fault>
        ensures { (mended : List ℕ → List ℕ)
            → IsMade mended self.old self.new (a_remove name.now) result }
    {
        let place = self.table.place_of(name).ok_or(StateFault::NotKept)?;
        self.table.remove(place);
        Ok(place)
    }
}
