//! The statuses that the program ends with.

use std::process::ExitCode;

/// How the program ended.
#[derive(Clone, Copy, PartialEq, Eq, Debug)]
pub(crate) enum Status {
    /// All was allowed, kept apart or explained.
    Passed = 0,
    /// Something was refused, or two names meet.
    Refused = 1,
    /// The arguments are wrong, or something failed.
    Failed = 2,
}

impl From<bool> for Status {
    fn from(passed: bool) -> Status {
        if passed {
            Status::Passed
        } else {
            Status::Refused
        }
    }
}

impl From<Status> for ExitCode {
    fn from(status: Status) -> ExitCode {
        ExitCode::from(status as u8)
    }
}
