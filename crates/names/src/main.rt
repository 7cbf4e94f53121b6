//! The program `names`: makes the calls that standard input lists, one to a line, on a register with no entry, and writes what came
//! of each line and the names that are kept then.
#![tactic(auto)]

fn main(rt: HostRuntime) -> anyhow::Result<()> {
    listing_io::run(&rt)
}
