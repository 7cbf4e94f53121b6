//! A caller of the library: the file system of a campus, a register over it, what a semester
//! changes there, and what is read back.
#![tactic(auto)]

ghost use Rattle.std.specs.Prelude.{◌≡◌, ◌<◌, ◌≤◌, ◌↔◌, ◌⊎◌, ◌==◌, [], length, count_by};
ghost use Rattle.std.specs.Prelude.{IsTrue, IsOk, IfOk, IfErr, IsErrOf, MatchOption};
ghost use Rattle.piles.specs.declared.chosen_pile.TheConstants.{MOST_LAYERS};
ghost use Rattle.mending.specs.Mender.{mended};
ghost use Rattle.register_model.specs.Claim.{Holds};
ghost use Rattle.register_model.specs.Reasons.{NoneNamed};
ghost use Rattle.register.specs.Faults.{outcome_of};
ghost use Rattle.register.specs.Meanings.{unmended};
ghost use Rattle.register.specs.Registers.{entries_in, meaning_in, state_in};
ghost use Rattle.calling.specs.declared.refusal.CampusError.TheVariants.{Pair, Pile};
ghost use Rattle.calling.specs.Semesters.{HasBegun, IsOwned, OthersStay, semester_outcome};

mod refusal;
#[cfg(test)]
mod tests;

use filesystems::{DeclareError, DeclaredBottom, FileSystem};
use piles::{AnyProtection, ChosenPile, PileError};
pub use refusal::CampusError;
use register::Register;
use register::faults::Fault;
use rulebooks::names::PartialNames;

/// A register of partial names over a pile that is chosen when the program runs.
pub type CampusRegister = Register<PartialNames, ChosenPile>;

/// What a semester changes: the name `closed` goes, the name `old` becomes `new`, and two names
/// come, `opened` and the handle of `title`, both with the number of their owner.
#[derive(Clone, Copy, Debug, PartialEq, Eq)]
pub struct Semester<'a> {
    pub closed: &'a [u8],
    pub old: &'a [u8],
    pub new: &'a [u8],
    pub opened: &'a [u8],
    pub title: &'a [u8],
    pub owner: u32,
}

/// The file system of a campus: a pile of these layers, the first on top, whose bottom confuses the
/// two names. It is refused by 33 where a name is longer than 32 bytes, and then by 34 where there
/// are more than 16 layers.
pub fn campus_files(
    layers: &[AnyProtection],
    name: &[u8],
    other: &[u8],
) -> Result<ChosenPile, CampusError>
    ensures fits { IsOk result
        ↔ ((length name.now ≤ 32) × (length other.now ≤ 32)
        × (length layers.now ≤ MOST_LAYERS)) }
    ensures first { (32 < length name.now) ⊎ (32 < length other.now)
        → IsErrOf result (Pair DeclareError.ComponentTooLong) }
    ensures refused { IfErr result (λ error. (error ≡ Pair DeclareError.ComponentTooLong)
        ⊎ (error ≡ Pile PileError.TooManyLayers)) }
    ensures layers { IfOk result (λ files. files.layers ≡ layers.now) }
    ensures together { IfOk result (λ files.
        IsTrue (⟦<ChosenPile as FileSystem>⟧.together files name.now other.now)) }
{
    let mut bottom = DeclaredBottom::new();
    bottom.declare(name, other)?;
    let files = ChosenPile::new(layers, bottom)?;
    Ok(files)
}

/// The register of a campus, with no entry.
pub fn campus_register(files: ChosenPile) -> CampusRegister
    ensures empty { entries_in result ≡ [] }
    ensures files { result.files ≡ files }
{
    Register::new(PartialNames, files)
}

/// Makes the changes of a semester: removes, renames, enters and offers, and answers the place of
/// the handle. It ends at the first of these calls that is refused, with that refusal, and what was
/// changed by then stays changed.
pub fn begin_semester(register: &mut CampusRegister, semester: Semester<'_>) -> Result<usize, Fault>
    ensures answer { outcome_of result
        ≡ semester_outcome (meaning_in mended register.old) (state_in register.old) semester.entry }
    ensures begun { IfOk result
        (HasBegun semester.entry (entries_in register.old) (entries_in register.new)) }
    ensures others { OthersStay semester.entry (entries_in register.old) (entries_in register.new) }
    ensures files { register.new.files ≡ register.old.files }
    ensures holds { Holds (meaning_in unmended register.new) (state_in register.new) }
{
    register.remove(semester.closed)?;
    register.rename(semester.old, semester.new, None)?;
    register.enter(semester.opened, semester.owner, None)?;
    register.offer(semester.title, semester.owner)
}

/// The number of the owner of a name, if the name is kept, and none exactly where it is not.
pub fn owner_of(register: &CampusRegister, name: &[u8]) -> Option<u32>
    ensures { MatchOption result
        (NoneNamed name.now (entries_in register.now))
        (λ owner. IsOwned name.now owner (entries_in register.now)) }
{
    let place = register.find(name)?;
    register.entry(place).map(|entry| entry.number)
}

/// How many names have this owner.
pub fn count_owned(register: &CampusRegister, owner: u32) -> usize
    ensures { result ≡ count_by (λ entry. entry.number == owner) (entries_in register.now) }
{
    register
        .entries()
        .filter(|entry| entry.number == owner)
        .count()
}
