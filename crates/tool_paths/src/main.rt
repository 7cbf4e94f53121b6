//! The program `gushteral` on other words: tree paths.
#![tactic(auto)]

use std::process::ExitCode;

fn main(rt: HostRuntime) -> ExitCode {
    tool_io::run(&rt)
}
