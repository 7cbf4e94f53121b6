//! The program `gushteral` on other words: path components that are symbolic links.
#![tactic(auto)]

use std::process::ExitCode;

fn main(rt: HostRuntime) -> ExitCode {
    tool_io::run(&rt)
}
