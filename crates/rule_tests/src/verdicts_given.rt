//! Verdicts on names at the edges of the rules.
use crate::cases::{Case, LINK};
use protections::{Hfs, Ntfs, Plain, Protection, WindowsDevices, WindowsNames, same_key};

// Whether the protection's verdicts are those of the cases.
fn gives<P: Protection>(protection: &P, cases: &[Case]) -> bool {
    cases.iter().all(|case| {
        let verdict = protection.verdict(case.input, case.mode);
        verdict.map(|verdict| verdict.number()) == case.number
    })
}

#[test]
fn plain(rt: HostRuntime) {
    let cases = [
        Case::refused(b".GIT", None, 26),
        Case::refused(b".GitModules", LINK, 27),
        Case::allowed(b".GitModules", None),
        Case::allowed(b".gitignore", LINK),
    ];
    assert!(rt; gives(&Plain, &cases));
}

#[test]
fn hfs(rt: HostRuntime) {
    let cases = [
        Case::refused(b".g\xE2\x80\x8Cit", None, 26),
        Case::refused(b".git\xEF\xBB\xBFModules", LINK, 27),
        Case::allowed(b".g\xE2\x80it", None),
    ];
    assert!(rt; gives(&Hfs, &cases));
    assert!(rt; same_key(&Hfs, b"Group", b"gro\xE2\x80\xAEup"));
}

#[test]
fn ntfs(rt: HostRuntime) {
    let cases = [
        Case::refused(b"GIT~1 . .", None, 26),
        Case::refused(b".git::$INDEX_ALLOCATION", None, 26),
        Case::refused(b"gitmod~4", LINK, 27),
        Case::allowed(b"gitmod~5", LINK),
        Case::refused(b"GI7EB~10", LINK, 27),
        Case::refused(b"gi7eba~1", LINK, 27),
        Case::refused(b"~1000000", LINK, 27),
        Case::allowed(b"~0000000", LINK),
        Case::allowed(b"gi7eb~1", LINK),
    ];
    assert!(rt; gives(&Ntfs, &cases));
}

#[test]
fn windows(rt: HostRuntime) {
    let names = [
        Case::refused(b"a\\b", None, 22),
        Case::refused(b"\xE2\x82\x3A", None, 23),
        Case::allowed(b"\xF0\x80\x3A", None),
    ];
    let devices = [
        Case::refused(b"LPT0", None, 24),
        Case::allowed(b"COM0", None),
        Case::refused(b"Conout$ .txt", None, 24),
        Case::refused(b"a\"b", None, 25),
        Case::refused(b"a.", None, 25),
    ];
    assert!(rt; gives(&WindowsNames, &names));
    assert!(rt; gives(&WindowsDevices, &devices));
}
