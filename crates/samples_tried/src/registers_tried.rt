//! Samples of names entered into a register.
use filesystems::{DeclaredBottom, hfs_over_ntfs};
use register::Register;
use register::faults::Fault;
use rulebooks::names::PartialNames;

/// Writes what came of a call.
fn write_answer(rt: &HostRuntime, what: &str, answer: Result<usize, Fault>) -> anyhow::Result<()> {
    match answer {
        Ok(place) => println!(rt; "{what}: place {place}")?,
        Err(fault) => println!(rt; "{what}: refused {}", fault.number())?,
    }
    Ok(())
}

/// Names that a storage confuses, as it is declared.
fn declared(rt: &HostRuntime) -> anyhow::Result<()> {
    let mut bottom = DeclaredBottom::new();
    bottom.declare(b"lib", b"library")?;
    let mut register = Register::new(PartialNames, bottom);
    write_answer(
        rt,
        "lib and library are declared, lib/a is entered",
        register.enter(b"lib/a", 1, None),
    )?;
    write_answer(
        rt,
        "and then library/b",
        register.enter(b"library/b", 2, None),
    )
}

/// The longest names.
fn longest(rt: &HostRuntime) -> anyhow::Result<()> {
    let mut register = Register::new(PartialNames, hfs_over_ntfs());
    let name = [b'a'; 256];
    write_answer(
        rt,
        "a name of 255 bytes is entered",
        register.enter(&name[..255], 1, None),
    )?;
    write_answer(
        rt,
        "a name of 256 bytes is entered",
        register.enter(&name, 2, None),
    )
}

/// A full register, of the names from `aa` to `ex`.
fn full(rt: &HostRuntime) -> anyhow::Result<()> {
    let mut register = Register::new(PartialNames, hfs_over_ntfs());
    for index in 0..128u8 {
        let name = [b'a' + index / 26, b'a' + index % 26];
        // A name that is not entered shows in the count.
        register.enter(&name, u32::from(index), None).ok();
    }
    println!(rt;
        "the names from aa on are entered: {} are kept",
        register.count()
    )?;
    write_answer(
        rt,
        "and then EX, which meets ex",
        register.enter(b"EX", 128, None),
    )?;
    write_answer(
        rt,
        "and then ey, which meets none",
        register.enter(b"ey", 128, None),
    )
}

/// Tries each sample, and writes what came of it.
pub(crate) fn run(rt: &HostRuntime) -> anyhow::Result<()> {
    declared(rt)?;
    longest(rt)?;
    full(rt)
}
