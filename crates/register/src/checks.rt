//! What is wrong with a name and its mode by themselves, and whether a kept name meets a new one.
ghost use Rattle.std.specs.Prelude.{◌≡◌, ℕ, ◌<◌, ◌≤◌, List, length, IfOk, MatchResult};
ghost use Rattle.std.specs.Option.{option_map};
ghost use Rattle.tag.specs.Components.{components};
ghost use Rattle.register_model.specs.Calls.{first_meeting, first_verdict, name_fault, or_else};
ghost use Rattle.register.specs.Faults.{fault_of};
ghost use Rattle.register_model.specs.declared.TheConstants.{LONGEST_NAME};
ghost use Rattle.register.specs.Meanings.{meaning_of};
ghost use Rattle.register.specs.Registers.{entries_in};

use crate::Register;
use crate::faults::{Fault, StateFault};
use crate::table::Name;
use filesystems::FileSystem;
use protections::Mode;
use register_model::LONGEST_NAME;
use rulebooks::{Rulebook, ask};
use tag::components::Components;

/// Refuses a name or text that is longer than a kept name may be.
pub(crate) fn check_length(text: &[u8]) -> Result<(), StateFault>
    ensures { MatchResult result
        (λ _. length text.now ≤ LONGEST_NAME)
        (λ fault. (LONGEST_NAME < length text.now) × (fault ≡ StateFault.TooLong)) }
{
    if text.len() > LONGEST_NAME {
        return Err(StateFault::TooLong);
    }
    Ok(())
}

/// The name as it is kept, unless it is too long, which the conversion tells.
fn kept_name(name: &[u8]) -> Result<Name, StateFault>
    ensures { MatchResult result
        (λ kept. (kept.items ≡ name.now) × (length name.now ≤ LONGEST_NAME))
        (λ fault. (LONGEST_NAME < length name.now) × (fault ≡ StateFault.TooLong)) }
{
    Name::try_from(name).map_err(|_| StateFault::TooLong)
}

/// The verdict on the component at this index.
fn check_component<F: FileSystem>(
    files: &F,
    component: &[u8],
    mode: Option<Mode>,
    index: usize,
) -> Result<(), Fault>
    ensures { fault_of result
        ≡ or_else (F.FileSystem.verdict_of files.now component.now mode) index None }
{
    files
        .verdict(component, mode)
        .map_or(Ok(()), |verdict| Err(Fault::Component { verdict, index }))
}

/// The verdicts on the components from the left: the mode is the last one's, and earlier ones have none.
fn check_components<F: FileSystem>(files: &F, name: &Name, mode: Option<Mode>) -> Result<(), Fault>
    ensures { fault_of result
        ≡ first_verdict (F.FileSystem.verdict_of files.now) mode 0 (components name.now.items) }
{
    // Two passes and a plain `for`: with `peekable` it would be a `while let` with a `peek` in each turn.
    let last = Components::of(name).count() - 1;
    for (index, component) in Components::of(name).enumerate() {
        let own = if index == last { mode } else { None };
        check_component(files, component, own, index)?;
    }
    Ok(())
}

impl<R: Rulebook, F: FileSystem> Register<R, F> {
    /// Checks a name by itself: its length, the rulebook, and the verdicts on its components. The answer is the name as it is kept.
    pub(crate) fn checked(&self, name: &[u8], mode: Option<Mode>) -> Result<Name, Fault>
        ensures fault { (mended : List ℕ → List ℕ) → fault_of result
            ≡ name_fault (meaning_of R.Rulebook mended F.FileSystem self.now.files) name.now mode }
        ensures name { IfOk result (λ kept. kept.items ≡ name.now) }
    {
        // Before the name is copied: one that its length or the rulebook refuses is not.
        check_length(name)?;
        ask(&self.rules, name)?;
        let kept = kept_name(name)?;
        check_components(&self.files, &kept, mode)?;
        Ok(kept)
    }

    /// Refuses a name that a kept one meets; the name `aside` does not count.
    pub(crate) fn check_meeting(&self, name: &[u8], aside: Option<&[u8]>) -> Result<(), StateFault>
        ensures { let met = first_meeting (F.FileSystem.together self.now.files)
            (option_map (λ x. x.now) aside.entry) name.now (entries_in self.now) in
            MatchResult result
            (λ _. None ≡ met)
            (λ fault. (place : ℕ) × (Some place ≡ met) × (fault ≡ StateFault.Met place)) }
    {
        self.table
            .first_meeting(&self.files, name, aside)
            .map_or(Ok(()), |place| Err(StateFault::Met { place }))
    }
}
