//! The program `replay`: reads recorded answers of the ported crate, one to a line, and says how many the port gives too.
#![tactic(auto)]

mod calls;
mod record;

use std::io::Read;

fn main(rt: HostRuntime) -> anyhow::Result<()> {
    let mut text = String::new(rt.alloc());
    rt.stdin().read_to_string(&mut text)?;
    let mut same: u64 = 0;
    let mut other: u64 = 0;
    for line in text.lines() {
        if calls::is_replayed(rt.alloc(), line)? {
            // A count that stops at its largest number needs no proof that it never gets there.
            same = same.saturating_add(1);
        } else {
            other = other.saturating_add(1);
            println!(rt; "differs: {line}")?;
        }
    }
    println!(rt; "recorded answers: {same} the same, {other} others")?;
    Ok(())
}
