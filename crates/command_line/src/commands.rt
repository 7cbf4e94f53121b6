//! The commands of the program, as clap takes them.
use crate::spellings::{KIND_WORDS, LAYER_WORDS};
use clap::{Arg, ArgAction, Command, value_parser};
use std::alloc::{AllocError, Global};

const VERSION: &str = "1.0.0 (rattle-kit-13f logic dac8208d650f15bf)";

const NOTES: &str = "\
Names and texts stand on the command line, or where there are none, on standard input, one to a
line. A line ends at the byte 0x0A; each other byte is part of the name, the byte 0x0D too.
A name that begins with a hyphen stands behind the word --.

Exit status:
  0  each name was allowed, the two names are kept apart, or the number was explained
  1  a name was refused, or the two names meet
  2  the command line is wrong, a pair or a pile was refused, or reading or writing failed

Example:
  gushteral check partial staff/Smith";

const CHECK_EXAMPLE: &str = "\
Example:
  gushteral check partial staff/Smith 'staff/J. Lee'";

const COMPONENT_EXAMPLE: &str = "\
With none of --windows, --hfs and --ntfs, all three protections are on.

Example:
  gushteral component --hfs --ntfs Smith .git";

const MEND_EXAMPLE: &str = "\
Example:
  gushteral mend 'Dr. Jones*'";

const MEET_EXAMPLE: &str = "\
Example:
  gushteral meet --layer hfs --layer ntfs --pair lib=library staff/Smith staff/smith";

const EXPLAIN_EXAMPLE: &str = "\
Example:
  gushteral explain 24";

// The names of the commands.
pub(crate) const CHECK: &str = "check";

pub(crate) const COMPONENT: &str = "component";

pub(crate) const MEND: &str = "mend";

pub(crate) const MEET: &str = "meet";

pub(crate) const EXPLAIN: &str = "explain";

// The names of their arguments.
pub(crate) const KIND: &str = "KIND";

pub(crate) const NAME: &str = "NAME";

pub(crate) const TEXT: &str = "TEXT";

pub(crate) const LINK: &str = "link";

pub(crate) const WINDOWS: &str = "windows";

pub(crate) const HFS: &str = "hfs";

pub(crate) const NTFS: &str = "ntfs";

pub(crate) const NONE: &str = "none";

pub(crate) const LAYER: &str = "layer";

pub(crate) const PAIR: &str = "pair";

pub(crate) const LEFT: &str = "LEFT";

pub(crate) const RIGHT: &str = "RIGHT";

pub(crate) const NUMBER: &str = "N";

/// A flag `--name`.
fn flag<'a>(heap: Global, name: &'a str, help: &'a str) -> Arg<'a> {
    Arg::new(heap, name)
        .long(name)
        .action(ArgAction::SetTrue)
        .help(help)
}

/// An option `--name` that may be given again.
fn repeated<'a>(heap: Global, name: &'a str, value: &'a str, help: &'a str) -> Arg<'a> {
    Arg::new(heap, name)
        .long(name)
        .value_name(value)
        .action(ArgAction::Append)
        .help(help)
}

/// An argument by its place that has to be given.
fn required<'a>(heap: Global, id: &'a str, help: &'a str) -> Arg<'a> {
    Arg::new(heap, id).required(true).help(help)
}

/// All words that are left.
fn list<'a>(heap: Global, id: &'a str, help: &'a str) -> Arg<'a> {
    Arg::new(heap, id)
        .num_args(0..)
        .action(ArgAction::Append)
        .help(help)
}

fn check<'a>(heap: Global) -> Result<Command<'a>, AllocError> {
    let kind = required(heap, KIND, "What the names are to be").value_parser(KIND_WORDS.as_slice());
    Command::new(heap, CHECK)
        .about("Says of each name whether it is allowed, or why it is refused")
        .after_help(CHECK_EXAMPLE)
        .arg(kind)?
        .arg(list(heap, NAME, "A name to check"))
}

fn component<'a>(heap: Global) -> Result<Command<'a>, AllocError> {
    let none = flag(heap, NONE, "Put all three protections off")
        .conflicts_with(WINDOWS)?
        .conflicts_with(HFS)?
        .conflicts_with(NTFS)?;
    Command::new(heap, COMPONENT)
        .about("Says of each path component whether it is safe, or why it is refused")
        .after_help(COMPONENT_EXAMPLE)
        .arg(flag(heap, LINK, "The component names a symbolic link"))?
        .arg(flag(heap, WINDOWS, "Put the protection of Windows on"))?
        .arg(flag(heap, HFS, "Put the protection of HFS+ on"))?
        .arg(flag(heap, NTFS, "Put the protection of NTFS on"))?
        .arg(none)?
        .arg(list(heap, NAME, "A path component to check"))
}

fn mend<'a>(heap: Global) -> Result<Command<'a>, AllocError> {
    Command::new(heap, MEND)
        .about("Turns each text into a handle")
        .after_help(MEND_EXAMPLE)
        .arg(list(heap, TEXT, "A text to mend"))
}

/// The command that says whether two names meet.
pub(crate) fn meet<'a>(heap: Global) -> Result<Command<'a>, AllocError> {
    let layer = repeated(heap, LAYER, "L", "A protection that the file system has").value_parser(
        LAYER_WORDS.as_slice(),
    );
    let pair = repeated(
        heap,
        PAIR,
        "A=B",
        "Two components that the file system takes for one; A ends before the first =",
    );
    Command::new(heap, MEET)
        .about("Says whether two names meet on a file system")
        .after_help(MEET_EXAMPLE)
        .arg(layer)?
        .arg(pair)?
        .arg(required(heap, LEFT, "A name"))?
        .arg(required(heap, RIGHT, "The other name"))
}

fn explain<'a>(heap: Global) -> Result<Command<'a>, AllocError> {
    let number = required(heap, NUMBER, "The number of a refusal, from 0 to 255").value_parser(
        value_parser!(u8),
    );
    Command::new(heap, EXPLAIN)
        .about("Says what the number of a refusal means")
        .after_help(EXPLAIN_EXAMPLE)
        .arg(number)
}

/// The whole command.
pub(crate) fn gushteral<'a>(heap: Global) -> Result<Command<'a>, AllocError> {
    Command::new(heap, "gushteral")
        .version(VERSION)
        .about("Says which names are allowed, mends texts, and says which names meet")
        .after_help(NOTES)
        .subcommand_required(true)
        .subcommand(check(heap)?)?
        .subcommand(component(heap)?)?
        .subcommand(mend(heap)?)?
        .subcommand(meet(heap)?)?
        .subcommand(explain(heap)?)
}
