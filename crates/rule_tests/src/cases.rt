//! Cases of a check: a byte string, and the number by which it is refused, if it is.
use protections::Mode;

pub const LINK: Option<Mode> = Some(Mode::Symlink);

// A component and its mode, and the number by which it is refused, or none where it is allowed.
#[derive(Clone, Copy)]
pub(crate) struct Case {
    pub input: &'static [u8],
    pub mode: Option<Mode>,
    pub number: Option<u8>,
}

impl Case {
    pub(crate) fn allowed(input: &'static [u8], mode: Option<Mode>) -> Case {
        Case {
            input,
            mode,
            number: None,
        }
    }

    pub(crate) fn refused(input: &'static [u8], mode: Option<Mode>, number: u8) -> Case {
        Case {
            input,
            mode,
            number: Some(number),
        }
    }
}
