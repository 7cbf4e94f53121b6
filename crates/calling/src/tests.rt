//! A semester at a campus whose storages confuse two names.
use crate::{Semester, begin_semester, campus_files, campus_register, count_owned, owner_of};
use piles::AnyProtection;
use std::test::Fail;

#[test]
fn semester(rt: HostRuntime) -> Result<(), Fail> {
    let layers = [
        AnyProtection::WindowsNames,
        AnyProtection::Hfs,
        AnyProtection::Ntfs,
        AnyProtection::WindowsDevices,
    ];
    let files = campus_files(&layers, "Ärzte".as_bytes(), "ärzte".as_bytes())?;
    let mut register = campus_register(files);
    for (name, number) in [("Ärzte", 7), ("old-lab", 8), ("staff/lee", 9)] {
        register.enter(name.as_bytes(), number, None)?;
    }
    let met = register.enter("ärzte/praxis".as_bytes(), 10, None);
    assert!(rt; met.is_err_and(|fault| fault.number() == 41));
    let semester = Semester {
        closed: b"old-lab",
        old: b"staff/lee",
        new: b"staff/kim",
        opened: b"lab",
        title: b"Dr. Jones*",
        owner: 7,
    };
    assert_eq!(rt; begin_semester(&mut register, semester)?, 0);
    let kept = [
        ("Dr.-Jones-", 7),
        ("lab", 7),
        ("staff/kim", 9),
        ("Ärzte", 7),
    ];
    assert_eq!(rt; register.count(), kept.len());
    for (entry, (name, number)) in register.entries().zip(kept) {
        assert!(rt; entry.name == name.as_bytes() && entry.number == number);
    }
    assert_eq!(rt; owner_of(&register, b"staff/kim"), Some(9));
    assert_eq!(rt; owner_of(&register, b"staff/lee"), None);
    assert_eq!(rt; count_owned(&register, 7), 3);
    Ok(())
}
