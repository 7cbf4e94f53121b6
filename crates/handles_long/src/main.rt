//! The program `handles` again, for the input beside it: 20,004 bytes, more than one read gives. Each text but the last ends in
//! slashes, which its handle does not have; the last one ends with the input.
// A program is run on the one input beside it, so each other input has a program of its own.
#![tactic(auto)]

fn main(rt: HostRuntime) -> anyhow::Result<()> {
    handling_io::run(&rt)
}
