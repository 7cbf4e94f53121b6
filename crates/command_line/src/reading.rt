//! The task that the words ask for, read from what clap found in them.
use crate::commands;
use crate::flags::Flags;
use crate::spellings::{kind_of, layer_of, pair_of};
use clap::error::ErrorKind;
use clap::{ArgMatches, Error};
use path::Mode;
use piles::AnyProtection;
use std::alloc::{AllocError, Global};
use std::convert::AsStr;
use tool::Question;

/// What the program is asked to do. Its texts are borrowed from the words.
#[derive(Debug, Drop)]
pub enum Task<'a> {
    /// Answer a question on each of these names; where there is none, on those on standard input.
    Answer {
        question: Question,
        names: Vec<&'a str>,
    },
    /// Say whether two names meet on the file system of these layers and declared pairs.
    Meet {
        layers: Vec<AnyProtection>,
        pairs: Vec<(&'a str, &'a str)>,
        left: &'a str,
        right: &'a str,
    },
    /// Explain the refusal that has this number.
    Explain {
        number: u8,
    },
}

/// The error of words that clap passes, with the usage of `meet`.
// Clap lets only a wrong pair pass. Its contracts do not say so of the words of a subcommand, so
// this error stands in the other cases too.
fn mistake(heap: Global, message: &str) -> Result<Error, AllocError> {
    commands::meet(heap)?
        .bin_name("gushteral meet")?
        .error(ErrorKind::ValueValidation, message)
}

/// The values of an argument, in their order.
fn values<'a>(
    heap: Global,
    matches: &ArgMatches<'a>,
    id: &str,
) -> Result<Vec<&'a str>, AllocError> {
    Vec::from_slice(heap, matches.get_strs(id).unwrap_or(&[]))
}

/// The value of an argument that clap requires.
fn required<'a>(heap: Global, matches: &ArgMatches<'a>, id: &str) -> Result<&'a str, Error> {
    match matches.get_str(id) {
        Some(value) => Ok(value),
        None => Err(mistake(heap, "an argument is missing")?),
    }
}

fn read_check<'a>(heap: Global, matches: &ArgMatches<'a>) -> Result<Task<'a>, Error> {
    let Some(kind) = kind_of(required(heap, matches, commands::KIND)?) else {
        return Err(mistake(heap, "there is no such kind")?);
    };
    Ok(Task::Answer {
        question: Question::Check(kind),
        names: values(heap, matches, commands::NAME)?,
    })
}

fn read_component<'a>(heap: Global, matches: &ArgMatches<'a>) -> Result<Task<'a>, AllocError> {
    let mode = matches.get_flag(commands::LINK).then_some(Mode::Symlink);
    let flags = Flags {
        windows: matches.get_flag(commands::WINDOWS),
        hfs: matches.get_flag(commands::HFS),
        ntfs: matches.get_flag(commands::NTFS),
        none: matches.get_flag(commands::NONE),
    };
    let options = flags.options();
    Ok(Task::Answer {
        question: Question::Component { mode, options },
        names: values(heap, matches, commands::NAME)?,
    })
}

fn read_mend<'a>(heap: Global, matches: &ArgMatches<'a>) -> Result<Task<'a>, AllocError> {
    Ok(Task::Answer {
        question: Question::Mend,
        names: values(heap, matches, commands::TEXT)?,
    })
}

fn read_layers(heap: Global, words: &[&str]) -> Result<Vec<AnyProtection>, Error> {
    let mut layers = Vec::new(heap);
    for word in words {
        let Some(layer) = layer_of(word) else {
            return Err(mistake(heap, "there is no such layer")?);
        };
        layers.push(layer)?;
    }
    Ok(layers)
}

fn read_pairs<'a>(heap: Global, words: &[&'a str]) -> Result<Vec<(&'a str, &'a str)>, Error> {
    let mut pairs = Vec::new(heap);
    for word in words {
        let Some(pair) = pair_of(word) else {
            let message = format!(in heap; "the pair '{word}' has no '=' between its components")?;
            return Err(mistake(heap, message.as_str())?);
        };
        pairs.push(pair)?;
    }
    Ok(pairs)
}

fn read_meet<'a>(heap: Global, matches: &ArgMatches<'a>) -> Result<Task<'a>, Error> {
    let layers = values(heap, matches, commands::LAYER)?;
    let pairs = values(heap, matches, commands::PAIR)?;
    Ok(Task::Meet {
        layers: read_layers(heap, layers.as_slice())?,
        pairs: read_pairs(heap, pairs.as_slice())?,
        left: required(heap, matches, commands::LEFT)?,
        right: required(heap, matches, commands::RIGHT)?,
    })
}

fn read_explain<'a>(heap: Global, matches: &ArgMatches<'a>) -> Result<Task<'a>, Error> {
    match matches.get_one::<u8>(commands::NUMBER) {
        Some(number) => Ok(Task::Explain { number }),
        None => Err(mistake(heap, "there is no number")?),
    }
}

/// The task that the words ask for, the first being the name of the program. The error is a mistake
/// in the words, or the text of help or of the version; it says itself where its text belongs and
/// which status the program ends with.
pub fn parse<'a, S: AsStr>(heap: Global, words: &'a [S]) -> Result<Task<'a>, Error> {
    let matches = commands::gushteral(heap)?.try_get_matches_from(words)?;
    match matches.subcommand() {
        Some((commands::CHECK, found)) => read_check(heap, found),
        Some((commands::COMPONENT, found)) => Ok(read_component(heap, found)?),
        Some((commands::MEND, found)) => Ok(read_mend(heap, found)?),
        Some((commands::MEET, found)) => read_meet(heap, found),
        Some((commands::EXPLAIN, found)) => read_explain(heap, found),
        _ => Err(mistake(heap, "there is no such task")?),
    }
}
