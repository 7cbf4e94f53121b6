//! The program `samples_tried`: tries samples of the rules, and writes each with what came of it.
#![tactic(auto)]

mod names_tried;
mod registers_tried;

fn main(rt: HostRuntime) -> anyhow::Result<()> {
    println!(rt; "samples that are proved: {}", samples::proved())?;
    names_tried::run(&rt)?;
    registers_tried::run(&rt)?;
    Ok(())
}
