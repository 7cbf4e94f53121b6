//! Names that file systems confuse or refuse, and the limits of a declared bottom.
use filesystems::{DeclaredBottom, FileSystem, all_protections, hfs_over_ntfs, windows_pile};
use protections::{Mode, Protection};

// The number of the verdict, if there is one.
fn number<F: FileSystem>(files: &F, component: &[u8], mode: Option<Mode>) -> Option<u8> {
    files
        .verdict(component, mode)
        .map(|verdict| verdict.number())
}

const LINK: Option<Mode> = Some(Mode::Symlink);

// Two components, and whether they lie together.
type Pair = (&'static [u8], &'static [u8], bool);

// Whether just these of the pairs lie together.
fn confuses<F: FileSystem>(files: &F, pairs: &[Pair]) -> bool {
    pairs.iter().all(|(left, right, together)| files.lie_together(*left, *right) == *together)
}

// A component and its mode, and the number by which it is refused.
type Case = (&'static [u8], Option<Mode>, Option<u8>);

// Whether the file system gives these so.
fn gives<F: FileSystem>(files: &F, cases: &[Case]) -> bool {
    cases.iter().all(|(component, mode, refused)| number(files, *component, *mode) == *refused)
}

#[test]
fn plain_pairs(rt: HostRuntime) {
    let mut bottom = DeclaredBottom::new();
    assert!(rt; !bottom.lie_together(b"lib", b"library"));
    assert!(rt; bottom.declare(b"lib", b"library").is_ok());
    let pairs: [Pair; 4] = [
        (b"lib", b"library", true),
        (b"library", b"lib", true),
        (b"x", b"x", true),
        (b"lib", b"Library", false),
    ];
    assert!(rt; confuses(&bottom, &pairs));
    assert_eq!(rt; number(&bottom, b".git", None), Some(26));
}

#[test]
fn limits(rt: HostRuntime) {
    let long = b"123456789012345678901234567890123";
    let mut bottom = DeclaredBottom::new();
    assert!(rt; bottom.declare(&long[1..], b"x").is_ok());
    for _ in 0..15 {
        assert!(rt; bottom.declare(b"a", b"b").is_ok());
    }
    assert!(rt;
        bottom
            .declare(b"a", b"b")
            .is_err_and(|error| error.number() == 44)
    );
    assert!(rt;
        bottom
            .declare(b"a", long)
            .is_err_and(|error| error.number() == 33)
    );
    assert!(rt; !bottom.lie_together(b"a", long) && bottom.lie_together(b"x", &long[1..]));
}

#[test]
fn hfs_and_ntfs(rt: HostRuntime) {
    let pile = hfs_over_ntfs();
    let pairs: [Pair; 3] = [
        (b"Group", b"group", true),
        (b"Group. ", b"group:stream", true),
        (b"group", b"groups", false),
    ];
    let cases: [Case; 3] = [
        (b"git~1", None, Some(26)),
        (b".gitmodules", LINK, Some(27)),
        (b"con", None, None),
    ];
    assert!(rt; confuses(&pile, &pairs) && gives(&pile, &cases));
}

#[test]
fn windows(rt: HostRuntime) {
    let pile = windows_pile();
    let pairs: [Pair; 2] = [
        (b"Group. ", b"group:stream", true),
        (b"con", b"con.txt", false),
    ];
    let cases: [Case; 3] = [
        (b"a\\b", None, Some(22)),
        (b"con", None, Some(24)),
        (b"git~1", None, Some(26)),
    ];
    assert!(rt; confuses(&pile, &pairs) && gives(&pile, &cases));
}

#[test]
fn full(rt: HostRuntime) {
    let mut bottom = DeclaredBottom::new();
    assert!(rt; bottom.declare(b"lib", b"library").is_ok());
    let pile = all_protections(bottom);
    let pairs: [Pair; 3] = [
        (b"library", b"lib", true),
        (b"LIB", b"lib.", true),
        (b"LIB", b"library", false),
    ];
    let cases: [Case; 2] = [(b"con\\", None, Some(22)), (b"con", None, Some(24))];
    assert!(rt; confuses(&pile, &pairs) && gives(&pile, &cases));
}
