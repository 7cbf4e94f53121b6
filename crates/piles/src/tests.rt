//! Chosen piles beside one that is built by hand, and their limit.
use crate::{AnyProtection, ChosenPile, MOST_LAYERS};
use filesystems::{DeclaredBottom, FileSystem, hfs_over_ntfs};
use protections::Mode;
use std::test::Fail;

const COMPONENTS: [&[u8]; 6] = [b".GIT", b"git~1", b".gitmodules", b"a", b"a.", b"con"];

// The number of the verdict, if there is one.
fn number<F: FileSystem>(files: &F, component: &[u8], mode: Option<Mode>) -> Option<u8> {
    files
        .verdict(component, mode)
        .map(|verdict| verdict.number())
}

#[test]
fn as_by_hand(rt: HostRuntime) -> Result<(), Fail> {
    let layers = [AnyProtection::Hfs, AnyProtection::Ntfs];
    let chosen = ChosenPile::new(&layers, DeclaredBottom::new())?;
    let by_hand = hfs_over_ntfs();
    for left in COMPONENTS {
        for mode in [None, Some(Mode::Symlink)] {
            assert!(rt; number(&chosen, left, mode) == number(&by_hand, left, mode));
        }
        for right in COMPONENTS {
            assert!(rt; chosen.lie_together(left, right) == by_hand.lie_together(left, right));
        }
    }
    assert_eq!(rt; number(&chosen, b".GIT", None), Some(26));
    assert_eq!(rt; number(&chosen, b"git~1", None), Some(26));
    assert_eq!(rt; number(&chosen, b"con", None), None);
    assert!(rt; chosen.lie_together(b"a.", b"a") && !chosen.lie_together(b"a", b"con"));
    Ok(())
}

#[test]
fn first_from_the_top(rt: HostRuntime) -> Result<(), Fail> {
    let mut bottom = DeclaredBottom::new();
    bottom.declare(b"lib", b"library")?;
    let layers = [
        AnyProtection::WindowsDevices,
        AnyProtection::WindowsNames,
        AnyProtection::WindowsDevices,
    ];
    let chosen = ChosenPile::new(&layers, bottom)?;
    assert_eq!(rt; number(&chosen, b"con\\", None), Some(22));
    assert_eq!(rt; number(&chosen, b"a?\\", None), Some(25));
    assert_eq!(rt; number(&chosen, b".git", None), Some(26));
    assert!(rt; chosen.lie_together(b"library", b"lib") && !chosen.lie_together(b"lib", b"Lib"));
    Ok(())
}

#[test]
fn limit(rt: HostRuntime) {
    let layers = [AnyProtection::Ntfs; MOST_LAYERS];
    assert!(rt; ChosenPile::new(&layers, DeclaredBottom::new()).is_ok());
    let more = [AnyProtection::Ntfs; 17];
    assert!(rt;
        ChosenPile::new(&more, DeclaredBottom::new()).is_err_and(|error| error.number() == 34)
    );
}
