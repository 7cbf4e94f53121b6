//! The report of handles on standard input and standard output.
#![tactic(auto)]

use std::io::{Read, Write};

// `listing_io` reads up to a length and writes another report: a function for both would take both from its caller, and be no
// shorter.
/// Reads texts, one to a line, from standard input, and writes the report of their handles to standard output.
pub fn run(rt: &HostRuntime) -> anyhow::Result<()> {
    let mut input = Vec::new(rt.alloc());
    rt.stdin().read_to_end(&mut input)?;
    let report = handling::report(rt.alloc(), input.as_slice())?;
    rt.stdout().write_all(report.as_slice())?;
    Ok(())
}
