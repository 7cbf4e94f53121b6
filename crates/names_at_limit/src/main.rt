//! The program `names` again, for the input beside it: 16,384 bytes, the most that it takes. The last line ends with the input, and is
//! an enter whose name shows in the report, as are those at 0, 4,096, 8,192 and 12,288 bytes; the others are refused by 43.
// A program is run on the one input beside it, so each other input has a program of its own.
#![tactic(auto)]

fn main(rt: HostRuntime) -> anyhow::Result<()> {
    listing_io::run(&rt)
}
