//! The program `names` again, for the input beside it: that of `names_at_limit` with one byte more, a newline, which is too long.
// A program is run on the one input beside it, so each other input has a program of its own.
#![tactic(auto)]

fn main(rt: HostRuntime) -> anyhow::Result<()> {
    listing_io::run(&rt)
}
