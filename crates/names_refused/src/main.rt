//! The program `names` again, for the input beside it: a list with every refusal that it can give.
// A program is run on the one input beside it, so each other input has a program of its own.
#![tactic(auto)]

fn main(rt: HostRuntime) -> anyhow::Result<()> {
    listing_io::run(&rt)
}
