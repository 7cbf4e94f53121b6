//! The program `gushteral`: answers what its arguments ask of names.
#![tactic(auto)]

use std::process::ExitCode;

fn main(rt: HostRuntime) -> ExitCode {
    tool_io::run(&rt)
}
