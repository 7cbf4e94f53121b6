//! Each subcommand at its function: lines that were written down by hand from the rules.
use crate::{Kind, Line, check, component, explain, meet, mend, pile};
use explanations::AnyRefusal;
use path::{Mode, Options};
use piles::AnyProtection;
use std::test::Fail;
use words::NameRefusal;

// Whether a line is this one, and passed or not.
fn is(line: &Line, bytes: &str, passed: bool) -> bool {
    line.bytes.as_slice() == bytes.as_bytes() && line.passed == passed
}

#[test]
fn names_checked(rt: HostRuntime) -> Result<(), Fail> {
    let cases: [(Kind, &'static [u8], &'static str, bool); 7] = [
        (Kind::Tag, b"@", "allowed\n", true),
        (
            Kind::Partial,
            b"@",
            "refused 13 this name is reserved\n",
            false,
        ),
        (
            Kind::Partial,
            b"Dr. Jones",
            "refused 1 a name may not have this byte: 0x20\n",
            false,
        ),
        (
            Kind::Complete,
            b"main",
            "refused 12 a name with no slash must be of capital letters and underscores, like HEAD\n",
            false,
        ),
        (Kind::Branch, b"refs/heads/main", "allowed\n", true),
        (
            Kind::Path,
            b"a/b//c",
            "refused 21 component 2: the name is empty\n",
            false,
        ),
        (
            Kind::Path,
            b"a/..",
            "refused 28 component 1: the names . and .. mean a directory and the one above it\n",
            false,
        ),
    ];
    for (kind, name, bytes, passed) in &cases {
        let line = check(rt.alloc(), *kind, name)?;
        assert!(rt; is(&line, bytes, *passed));
    }
    Ok(())
}

#[test]
fn components_checked(rt: HostRuntime) -> Result<(), Fail> {
    let all = Options::default();
    let device = component(rt.alloc(), None, all, b"LPT1.txt")?;
    assert!(rt;
        is(
            &device,
            "refused 24 the name is reserved for a device on Windows\n",
            false
        )
    );
    let modules = component(rt.alloc(), None, all, b".gitmodules")?;
    assert!(rt; is(&modules, "allowed\n", true));
    let link = component(rt.alloc(), Some(Mode::Symlink), all, b".gitmodules")?;
    assert!(rt;
        is(
            &link,
            "refused 27 the name stands for .gitmodules, which may not be a symbolic link\n",
            false,
        )
    );
    Ok(())
}

#[test]
fn texts_mended(rt: HostRuntime) -> Result<(), Fail> {
    let line = mend(rt.alloc(), b"Dr. Jones*")?;
    assert!(rt; is(&line, "Dr.-Jones-\n", true));
    Ok(())
}

#[test]
fn names_that_meet(rt: HostRuntime) -> Result<(), Fail> {
    let layers = [AnyProtection::Hfs, AnyProtection::Ntfs];
    let pairs: [(&[u8], &[u8]); 1] = [(b"lib", b"library")];
    let cases: [(&'static [u8], &'static [u8], &'static str, bool); 4] = [
        (b"staff/Lee", b"staff/lee", "meet\n", false),
        (b"lib/a", b"library/b", "meet\n", false),
        (b"a", b"a/b", "meet\n", false),
        (b"staff/lee", b"staff/leigh", "apart\n", true),
    ];
    let files = pile(&layers, &pairs)?;
    for (left, right, bytes, passed) in &cases {
        let line = meet(rt.alloc(), &files, left, right)?;
        assert!(rt; is(&line, bytes, *passed));
    }
    Ok(())
}

#[test]
fn piles_refused(rt: HostRuntime) {
    let long: &[u8] = b"123456789012345678901234567890123";
    let pair: (&[u8], &[u8]) = (b"a", b"b");
    assert!(rt; pile(&[], &[(long, b"x")]).is_err_and(|error| error.number() == 33));
    assert!(rt; pile(&[], &[pair; 17]).is_err_and(|error| error.number() == 44));
    assert!(rt;
        pile(&[AnyProtection::Hfs; 17], &[pair; 16]).is_err_and(|error| error.number() == 34)
    );
    assert!(rt; pile(&[AnyProtection::Hfs; 16], &[pair; 16]).is_ok());
}

#[test]
fn refusals_explained(rt: HostRuntime) -> Result<(), Fail> {
    let lines = explain(rt.alloc(), AnyRefusal::Name(NameRefusal::EndsWithDot))?;
    assert_eq!(rt;
        lines.bytes.as_slice(),
        b"9 a name may not end with a dot\ncarries: nothing\nwhat to do: leave out the dot at the end\n".as_slice()
    );
    Ok(())
}
