//! Components at the edges of the rules, under settings of the protections.
use crate::cases::{Case, LINK};
use path::{Error, Options, component, component_is_windows_device};
use std::test::Fail;

const NONE: Options = Options {
    protect_windows: false,
    protect_hfs: false,
    protect_ntfs: false,
};

const WINDOWS: Options = Options {
    protect_windows: true,
    ..NONE
};

const NTFS: Options = Options {
    protect_ntfs: true,
    ..NONE
};

const BOTH: Options = Options {
    protect_windows: true,
    ..NTFS
};

// Whether the components of the cases are kept or refused as they say. `gives` asks a protection likewise: only the call differs.
fn checks(options: Options, cases: &[Case]) -> bool {
    cases.iter().all(|case| {
        let refusal = component(case.input, case.mode, options).err();
        refusal.map(|error| error.number()) == case.number
    })
}

#[test]
fn refusals(rt: HostRuntime) {
    let none = [
        Case::refused(b"", None, 21),
        Case::refused(b"..", None, 28),
        Case::refused(b".GIT", None, 26),
        Case::refused(b".gitmodules", LINK, 27),
    ];
    let windows = [
        Case::refused(b"\xE2\x82\x3A", None, 23),
        Case::allowed(b"\xF0\x80\x3A", None),
        Case::refused(b"c:", None, 23),
    ];
    let ntfs = [
        Case::allowed(b"LPT0", None),
        Case::refused(b"~1000000", LINK, 27),
    ];
    assert!(rt; checks(NONE, &none));
    assert!(rt; checks(WINDOWS, &windows));
    assert!(rt; checks(NTFS, &ntfs));
}

#[test]
fn refusals_by_several_protections(rt: HostRuntime) {
    let both = [
        Case::refused(b"LPT0", None, 24),
        Case::allowed(b"COM0", None),
    ];
    let all = [
        Case::refused(b".git:/x", None, 22),
        Case::allowed(b".gitmodules", None),
    ];
    assert!(rt; checks(BOTH, &both));
    assert!(rt; checks(Options::default(), &all));
}

#[test]
fn devices(rt: HostRuntime) {
    assert!(rt; component_is_windows_device(b"nul.tar.gz"));
    assert!(rt; !component_is_windows_device(b"COM0"));
}

#[test]
fn words_of_an_error(rt: HostRuntime) -> Result<(), Fail> {
    assert!(rt;
        component(b"LPT0", None, Options::default()).is_err_and(|error| error.number() == 24)
    );
    let error = Error::WindowsReservedName;
    let words = format!(in rt.alloc(); "{error}")?;
    assert_eq!(rt;
        words.as_str(),
        "the name is reserved for a device on Windows"
    );
    Ok(())
}
