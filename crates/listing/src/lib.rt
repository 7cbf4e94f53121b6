//! The listing of a register: which call each line of an input is, and the report of the answers and the kept names.
#![tactic(auto)]

ghost use Rattle.std.specs.Prelude.{◌≡◌, ◌≤◌, ◌⊎◌, length, IfOk, OnErr, OnOk};
ghost use Rattle.register_model.specs.Calls.{no_entries};
ghost use Rattle.register_model.specs.Claim.{Claim, OffersClaim, OffersExact};
ghost use Rattle.register.specs.Registers.{SameRules, meaning_in, state_in};
ghost use Rattle.runs.specs.Campus.{campus};
ghost use Rattle.listing.specs.Report.{history_of, left_by, report_from, report_of, too_long};

use filesystems::{FileSystem, hfs_over_ntfs};
use lines_read::{Reading, read_lines};
use register::Register;
use reports::write_report;
use rulebooks::MendingRulebook;
use rulebooks::names::PartialNames;
use runs::{Answer, perform};
use std::alloc::{AllocError, Global};

pub mod lines_read;
pub mod reports;

/// The most bytes of input that are read.
pub const LONGEST_INPUT: usize = 16384;

/// Makes the calls among the lines of an input on a register, and reports what came of each line and which names are kept then.
pub fn list<R: MendingRulebook, F: FileSystem>(
    heap: Global,
    register: &mut Register<R, F>,
    input: &[u8],
) -> Result<Vec<u8>, AllocError>
    ensures report { IfOk result (λ v. v.items
        ≡ report_from (meaning_in R.MendingRulebook.mended register.old) (state_in register.old)
        input.now) }
    ensures claim { OnOk result (state_in register.old ≡ no_entries
        → Claim (meaning_in R.MendingRulebook.mended register.old)
        (history_of (meaning_in R.MendingRulebook.mended register.old) (state_in register.old)
        input.now)
        (state_in register.new)) }
    ensures offers { OnOk result (OffersClaim (meaning_in R.MendingRulebook.mended register.old)
        (history_of (meaning_in R.MendingRulebook.mended register.old) (state_in register.old)
        input.now)) }
    ensures offers_exact { OnOk result (state_in register.old ≡ no_entries
        → OffersExact (meaning_in R.MendingRulebook.mended register.old)
        (history_of (meaning_in R.MendingRulebook.mended register.old) (state_in register.old)
        input.now)) }
    ensures left { OnOk result (state_in register.new
        ≡ left_by (meaning_in R.MendingRulebook.mended register.old) (state_in register.old)
        input.now) }
    ensures failed { OnErr result ((state_in register.new ≡ state_in register.old)
        ⊎ (state_in register.new
        ≡ left_by (meaning_in R.MendingRulebook.mended register.old) (state_in register.old)
        input.now)) }
    ensures same_rules { SameRules register.old register.new }
{
    let Reading { are_calls, calls } = read_lines(heap, input)?;
    // `perform` takes no memory, and writes the answers into room that it is given.
    let mut results: Vec<Answer> = vec![in heap; Ok(0); calls.len()]?;
    perform(register, calls.as_slice(), results.as_mut_slice());
    write_report(heap, are_calls.as_slice(), results.as_slice(), register)
}

/// The report for an input that is too long.
fn too_long(heap: Global) -> Result<Vec<u8>, AllocError>
    ensures { IfOk result (λ v. v.items ≡ too_long) }
{
    Vec::from_slice(heap, b"too long\n")
}

/// The report of a register of partial names on HFS+ over NTFS: what came of each line of an input, from a register with no entry,
/// and the names that are kept then.
pub fn report(heap: Global, input: &[u8]) -> Result<Vec<u8>, AllocError>
    ensures report { IfOk result (λ v. v.items ≡ report_of input.now) }
    ensures claim { OnOk result (length input.now ≤ LONGEST_INPUT
        → Claim campus (history_of campus no_entries input.now)
        (left_by campus no_entries input.now)) }
    ensures offers { OnOk result (length input.now ≤ LONGEST_INPUT
        → OffersClaim campus (history_of campus no_entries input.now)
        × OffersExact campus (history_of campus no_entries input.now)) }
{
    if input.len() > LONGEST_INPUT {
        return too_long(heap);
    }
    let mut register = Register::new(PartialNames, hfs_over_ntfs());
    list(heap, &mut register, input)
}
