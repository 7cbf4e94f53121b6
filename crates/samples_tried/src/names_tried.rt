//! Samples of names and texts.
/// Writes the number by which a sample is refused, if it is.
fn write_refusal(rt: &HostRuntime, what: &str, number: Option<u8>) -> anyhow::Result<()> {
    match number {
        Some(number) => println!(rt; "{what}: refused {number}")?,
        None => println!(rt; "{what}: allowed")?,
    }
    Ok(())
}

/// Tries each sample, and writes what came of it.
pub(crate) fn run(rt: &HostRuntime) -> anyhow::Result<()> {
    let refusal = reference::name(b"A1").err().map(|error| error.number());
    write_refusal(rt, "A1 as a complete name", refusal)?;
    let handle = handling::handle(rt.alloc(), b"a./")?;
    println!(rt; "a./ is mended to {}", str::from_utf8(handle.as_slice())?)?;
    let long = [b'a'; 4000];
    let handle = handling::handle(rt.alloc(), &long)?;
    let report = handling::report(rt.alloc(), &long)?;
    println!(rt;
        "4000 bytes are mended to {}, and the report has {}",
        handle.len(),
        report.len()
    )?;
    Ok(())
}
