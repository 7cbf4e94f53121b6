//! Tag names: the check, its errors, and the scanner that reads a name byte by byte.
#![tactic(auto)]

ghost use Rattle.std.specs.Prelude.{◌≡◌, ◌↔◌, [], Some, is_ok, IfOk, IsTrue};
ghost use Rattle.tag.specs.Answers.{Answer, IsFirst, Value, number_of};
ghost use Rattle.tag.specs.Bytes.{ends_in_lock};
ghost use Rattle.tag.specs.Components.{AreComponents, components};
ghost use Rattle.tag.specs.Errors.{answer_of, refusal};
ghost use Rattle.tag.specs.Manual.{Rules};
ghost use Rattle.tag.specs.Names.{closing, opening, reads, tag_name};
ghost use Rattle.tag.specs.Refusals.{Applies};
ghost use Rattle.tag.specs.Words.{words_of};

use scanner::Scanner;
use std::fmt;
use words::{Carried, Sentence};

pub mod components;
pub mod scanner;
pub mod splits;

/// Why a tag name is refused. The cases keep the numbers 1 to 11, in this order.
#[derive(Clone, Copy, Debug, PartialEq, Eq)]
pub enum Error {
    InvalidByte(u8),
    StartsWithSlash,
    RepeatedSlash,
    RepeatedDot,
    LockFileSuffix,
    ReflogPortion,
    Asterisk,
    StartsWithDot,
    EndsWithDot,
    EndsWithSlash,
    Empty,
}

impl Error {
    /// The number of the refusal.
    // A table, since the cases of an enum of which one carries a byte have no numbers of their own.
    pub fn number(&self) -> u8
        ensures { result ≡ number_of (refusal self.now) }
    {
        match self {
            Error::InvalidByte(_) => 1,
            Error::StartsWithSlash => 2,
            Error::RepeatedSlash => 3,
            Error::RepeatedDot => 4,
            Error::LockFileSuffix => 5,
            Error::ReflogPortion => 6,
            Error::Asterisk => 7,
            Error::StartsWithDot => 8,
            Error::EndsWithDot => 9,
            Error::EndsWithSlash => 10,
            Error::Empty => 11,
        }
    }
}

/// The sentence of the refusal; that of an invalid byte names it.
impl fmt::Display for Error {
    ghost output = { λ e. Some (words_of (refusal e)) };

    fn fmt<W: fmt::Write>(&self, f: &mut fmt::Formatter<W>) -> fmt::Result {
        let carried = match self {
            Error::InvalidByte(byte) => Carried::Byte(*byte),
            _ => Carried::Nothing,
        };
        let sentence = Sentence {
            text: words::text(self.number()),
            carried,
        };
        sentence.fmt(f)
    }
}

impl std::error::Error for Error {}

/// Whether the last five bytes are `.lock`.
pub fn ends_in_lock(bytes: &[u8]) -> bool
    ensures { result ≡ ends_in_lock bytes.now }
{
    bytes.ends_with(b".lock")
}

/// The rules before any byte is read: no byte, a last slash, a first slash.
fn before_reading(input: &[u8]) -> Result<(), Error>
    ensures { answer_of result ≡ opening input.now }
{
    match input {
        [] => Err(Error::Empty),
        [.., b'/'] => Err(Error::EndsWithSlash),
        [b'/', ..] => Err(Error::StartsWithSlash),
        _ => Ok(()),
    }
}

/// Reads the bytes from the left; the first that has a fault decides.
fn read(input: &[u8]) -> Result<(), Error>
    ensures { answer_of result ≡ reads [] input.now }
{
    let mut scanner = Scanner::AfterOther;
    // The place is needed for the bytes before it, which no adapter gives.
    for (i, byte) in input.iter().enumerate() {
        scanner.step(*byte)?;
        if matches!(scanner, Scanner::AfterSlash) && ends_in_lock(&input[..i]) {
            return Err(Error::LockFileSuffix);
        }
    }
    Ok(())
}

/// The rules after the bytes: `.lock` at the end of a longer name, a first dot, a last dot.
fn after_reading(input: &[u8]) -> Result<(), Error>
    ensures { answer_of result ≡ closing input.now }
{
    if ends_in_lock(input) && input != b".lock".as_slice() {
        return Err(Error::LockFileSuffix);
    }
    match input {
        [b'.', ..] => Err(Error::StartsWithDot),
        [.., b'.'] => Err(Error::EndsWithDot),
        _ => Ok(()),
    }
}

/// The answer for `input`, by its three groups of rules.
fn check(input: &[u8]) -> Result<(), Error>
    ensures { answer_of result ≡ tag_name input.now }
{
    before_reading(input)?;
    read(input)?;
    after_reading(input)
}

/// Whether `input` is an allowed tag name: then it is the answer itself, and else the first refusal is.
pub fn name(input: &[u8]) -> Result<&[u8], Error>
    ensures answer { answer_of result ≡ tag_name input.now }
    ensures first { IsFirst (Applies input.now) (answer_of result) }
    ensures no_other { (a : Answer Value) → IsFirst (Applies input.now) a → a ≡ answer_of result }
    ensures components { AreComponents input.now (components input.now) }
    ensures manual { IsTrue (is_ok result) ↔ Rules input.now }
    ensures view { IfOk result (λ v. v ≡ input.entry) }
{
    check(input)?;
    Ok(input)
}
