//! The program `handles`: reads texts, one to a line, from standard input, and writes the report of their handles.
#![tactic(auto)]

fn main(rt: HostRuntime) -> anyhow::Result<()> {
    handling_io::run(&rt)
}
