//! The tasks of the command line, on the arguments, standard input and standard output.
#![tactic(auto)]

mod answers;
mod names;
mod status;

use answers::Answer;
use anyhow::Context;
use command_line::Task;
use explanations::AnyRefusal;
use piles::{AnyProtection, ChosenPile};
use status::Status;
use std::alloc::Global;
use std::env;
use std::io::{self, ErrorKind, Read, Write};
use std::process::ExitCode;

/// Reads the arguments, the name of the program before them.
fn read_arguments(rt: &HostRuntime) -> anyhow::Result<Vec<String>> {
    match env::args(rt) {
        Ok(words) => Ok(words.collect(rt.alloc())?),
        Err(error) if error.kind() == ErrorKind::InvalidData => {
            anyhow::bail!("an argument is not UTF-8; give a name of any bytes on standard input")
        }
        Err(error) => Err(error).context("the arguments cannot be read"),
    }
}

/// Reads standard input to its end.
fn read_input(rt: &HostRuntime) -> anyhow::Result<Vec<u8>> {
    let mut input = Vec::new(rt.alloc());
    rt.stdin()
        .read_to_end(&mut input)
        .context("standard input cannot be read")?;
    Ok(input)
}

/// What came of a write to standard output. A reader that stops early is no failure.
fn unless_closed(written: io::Result<()>) -> anyhow::Result<()> {
    match written {
        Err(error) if error.kind() == ErrorKind::BrokenPipe => Ok(()),
        other => other.context("standard output cannot be written"),
    }
}

/// Whether a task asks of names on standard input, since it has none.
fn reads_input(task: &Task<'_>) -> bool {
    matches!(task, Task::Answer { names, .. } if names.is_empty())
}

/// The pile of these layers over a bottom with these pairs.
fn pile(
    heap: Global,
    layers: &[AnyProtection],
    pairs: &[(&str, &str)],
) -> anyhow::Result<ChosenPile> {
    let pairs: Vec<(&[u8], &[u8])> = pairs
        .iter()
        .map(|(left, right)| (left.as_bytes(), right.as_bytes()))
        .collect(heap)?;
    tool::pile(layers, pairs.as_slice()).context("there is no such file system")
}

/// What is answered to a task; `input` has the names where it has none.
fn answer_to(heap: Global, task: &Task<'_>, input: &[u8]) -> anyhow::Result<Answer> {
    match task {
        Task::Answer { question, names } => {
            Ok(answers::on_names(heap, question, names.as_slice(), input)?)
        }
        Task::Meet {
            layers,
            pairs,
            left,
            right,
        } => {
            let [left, right] = [left.as_bytes(), right.as_bytes()];
            let files = pile(heap, layers.as_slice(), pairs.as_slice())?;
            let line = tool::meet(heap, &files, left, right)?;
            Ok(Answer::of(line, [left, right].as_slice()))
        }
        Task::Explain { number } => match AnyRefusal::of(*number) {
            Some(refusal) => Ok(Answer::of(tool::explain(heap, refusal)?, &[])),
            None => anyhow::bail!("no refusal has the number {number}"),
        },
    }
}

/// Answers a task on standard output.
fn perform(rt: &HostRuntime, task: &Task<'_>) -> anyhow::Result<Status> {
    let input = if reads_input(task) {
        read_input(rt)?
    } else {
        Vec::new(rt.alloc())
    };
    let answer = answer_to(rt.alloc(), task, input.as_slice())?;
    unless_closed(rt.stdout().write_all(answer.bytes.as_slice()))?;
    if answer.is_hinted {
        // Nothing is left to do where standard error cannot be written.
        let _ = eprintln!(rt;
            "hint: a line ends in the byte 0x0D, as lines of Windows do; \
            that byte is part of the name"
        );
    }
    Ok(Status::from(answer.passed))
}

/// Shows what clap says of the words: help and the version on standard output, and a mistake on
/// standard error.
fn show(rt: &HostRuntime, error: &clap::Error) -> anyhow::Result<Status> {
    let shown = error.print(rt);
    if error.use_stderr() {
        return Ok(Status::Failed);
    }
    unless_closed(shown)?;
    Ok(Status::Passed)
}

/// Does what the arguments ask for.
fn answer_arguments(rt: &HostRuntime) -> anyhow::Result<Status> {
    let words = read_arguments(rt)?;
    match command_line::parse(rt.alloc(), words.as_slice()) {
        Ok(task) => perform(rt, &task),
        Err(error) => show(rt, &error),
    }
}

/// Does what the arguments ask for, and answers the status to end with: 0 where all was allowed,
/// kept apart or explained, 1 where something was refused or two names meet, 2 where the arguments
/// are wrong or something failed. Standard error says what was wrong or failed. A reader of
/// standard output that stops early leaves the status as it is.
pub fn run(rt: &HostRuntime) -> ExitCode {
    match answer_arguments(rt) {
        Ok(status) => ExitCode::from(status),
        Err(error) => {
            let _ = eprintln!(rt; "error: {error:#}");
            ExitCode::from(Status::Failed)
        }
    }
}
