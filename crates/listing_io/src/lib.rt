//! The listing on standard input and standard output.
#![tactic(auto)]

use listing::LONGEST_INPUT;
use std::io::{Read, Write};

/// Reads standard input, at most one byte more than the listing takes.
fn read_input(rt: &HostRuntime) -> anyhow::Result<Vec<u8>> {
    let mut input = Vec::new(rt.alloc());
    rt.stdin()
        // No `From` goes from a `usize` to a `u64`.
        .take(LONGEST_INPUT as u64 + 1)
        .read_to_end(&mut input)?;
    Ok(input)
}

/// Lists what standard input says, and writes the report to standard output.
pub fn run(rt: &HostRuntime) -> anyhow::Result<()> {
    let input = read_input(rt)?;
    let report = listing::report(rt.alloc(), input.as_slice())?;
    rt.stdout().write_all(report.as_slice())?;
    Ok(())
}
