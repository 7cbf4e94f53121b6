//! The program `gushteral` on other words: two names on a pile with a declared pair.
#![tactic(auto)]

use std::process::ExitCode;

fn main(rt: HostRuntime) -> ExitCode {
    tool_io::run(&rt)
}
