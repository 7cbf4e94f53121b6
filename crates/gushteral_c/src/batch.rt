//! Many names entered at once: partial names on HFS+ over NTFS over the plain bottom.
ghost use Rattle.std.specs.Prelude.{◌≡◌};
ghost use Rattle.register_model.specs.Calls.{answer, no_entries, state_after};
ghost use Rattle.register_model.specs.Calls.Call.{enter as an_enter};
ghost use Rattle.register_model.specs.Histories.{state_left};
ghost use Rattle.register.specs.Faults.{outcome_of};
ghost use Rattle.register.specs.Registers.{meaning_in, state_in};
ghost use Rattle.gushteral_c.specs.Batch.{batch, byte_of, bytes_after, count_left, number_of_index};
ghost use Rattle.runs.specs.Campus.{campus};

use crate::nulls::own_if_empty;
use filesystems::{HfsOverNtfs, hfs_over_ntfs};
use register::Register;
use register::faults::Fault;
use rulebooks::MendingRulebook;
use rulebooks::names::PartialNames;

/// A register of partial names on HFS+ over NTFS over the plain bottom.
type Campus = Register<PartialNames, HfsOverNtfs>;

/// A register with no entry.
fn empty_register() -> Campus
    ensures empty { state_in result ≡ no_entries }
    ensures meaning { meaning_in ⟦<PartialNames as MendingRulebook>⟧.mended result ≡ campus }
{
    Register::new(PartialNames, hfs_over_ntfs())
}

/// 0 for an accepted call, and else the number of the refusal.
// C reads the answers, so they are bytes.
fn answer_byte(answer: Result<usize, Fault>) -> u8
    ensures { result ≡ byte_of (outcome_of answer) }
{
    answer.err().map_or(0, |fault| fault.number())
}

/// The number of the name at an index: the index, and `u32::MAX` where that does not fit.
fn name_number(index: usize) -> u32
    ensures { result ≡ number_of_index index }
{
    u32::try_from(index).unwrap_or(u32::MAX)
}

/// Enters the name at an index with its number and no mode, and gives the answer as a byte.
fn enter_name(register: &mut Campus, name: &[u8], index: usize) -> u8
    ensures answer { result
        ≡ byte_of (answer campus (state_in register.old)
        (an_enter name.now (number_of_index index) None)) }
    ensures state { state_in register.new
        ≡ state_after campus (state_in register.old)
        (an_enter name.now (number_of_index index) None) }
{
    answer_byte(register.enter(name, name_number(index), None))
}

/// Enters names of `length` bytes each from the left, as many as there is room for answers.
fn enter_names(register: &mut Campus, names: &[u8], length: usize, answers: &mut [u8])
    ensures answers { answers.new
        ≡ bytes_after (state_in register.old) (batch length names.now answers.old) answers.old }
    ensures state { state_in register.new
        ≡ state_left campus (state_in register.old) (batch length names.now answers.old) }
{
    if length == 0 {
        return;
    }
    // C passes the names as bytes of one length, and the room for the answers.
    let room = answers.len();
    // No zip with `answers.iter_mut()`: after it nothing is known of what it wrote.
    for (index, name) in names.chunks_exact(length).enumerate().take(room) {
        answers[index] = enter_name(register, name, index);
    }
}

/// Enters names of `length` bytes each into a register with no entry: how many entries are kept.
fn enter_all(names: &[u8], length: usize, answers: &mut [u8]) -> usize
    ensures kept { result ≡ count_left (batch length names.now answers.old) }
    ensures answers { answers.new
        ≡ bytes_after no_entries (batch length names.now answers.old) answers.old }
{
    let mut register = empty_register();
    enter_names(&mut register, names, length, answers);
    register.count()
}

/// Enters names of `length` bytes each from the left into a register with no entry, as many as
/// there is room for answers, with the numbers 0, 1, 2 .. and no mode. Past `u32::MAX` the number
/// stays. A rest shorter than `length` is left out, and there is no name where `length` is 0. Each
/// answer becomes 0 for accepted, or else the number of the refusal, and later ones stay. The
/// result is how many entries are kept.
#[unsafe(no_mangle)]
pub extern "C" fn gushteral_enter_all(names: &[u8], length: usize, answers: &mut [u8]) -> usize
    ensures kept { result ≡ count_left (batch length names.now answers.old) }
    ensures answers { answers.new
        ≡ bytes_after no_entries (batch length names.now answers.old) answers.old }
{
    let names = own_if_empty(names);
    if answers.is_empty() {
        enter_all(names, length, &mut [])
    } else {
        enter_all(names, length, answers)
    }
}
