//! Which call a line is, and what the lines of an input are.
ghost use Rattle.std.specs.Prelude.{◌≡◌, map, IfOk};
ghost use Rattle.std.specs.Option.{option_map};
ghost use Rattle.std.specs.Str.{byte};
ghost use Rattle.tag.specs.Splits.{split_once};
ghost use Rattle.lines.specs.Lines.{lines};
ghost use Rattle.runs.specs.Listed.{call_of};
ghost use Rattle.listing.specs.Reading.{a_rename, an_enter, an_offer, number_before, number_of_digits, read_line};
ghost use Rattle.listing.specs.Parts.{number_and_rest};
ghost use Rattle.listing.specs.Report.{are_calls, calls_in};

use lines::Lines;
use runs::{Call, Change};
use std::alloc::{AllocError, Global};
use tag::splits::split_once;

/// The number that 1 to 9 digits spell.
fn read_number(digits: &[u8]) -> Option<u32>
    ensures { result ≡ number_of_digits digits.now }
{
    if !(1..=9).contains(&digits.len()) {
        return None;
    }
    // With `try_fold` the bound by which the sum does not overflow would have to be a contract of a closure, which is no plainer.
    let mut number = 0;
    for digit in digits {
        number = number * 10 + char::from(*digit).to_digit(10)?;
    }
    Some(number)
}

/// A number, and what stands after it and a space.
fn number_before(text: &[u8]) -> Option<(u32, &[u8])>
    ensures { option_map number_and_rest result ≡ number_before text.now }
{
    let (digits, rest) = split_once(text, b' ')?;
    Some((read_number(digits)?, rest))
}

/// The call of a line `e NUMBER NAME`, from what stands after its first space.
// This and `read_offer` differ in the call that they make, which is the last expression of each.
fn read_enter(rest: &[u8]) -> Option<Call<'_>>
    ensures { option_map call_of result ≡ option_map an_enter (number_before rest.now) }
{
    let (number, name) = number_before(rest)?;
    Some(Call::Change(Change::Enter {
        name,
        number,
        mode: None,
    }))
}

/// The call of a line `o NUMBER TEXT`.
fn read_offer(rest: &[u8]) -> Option<Call<'_>>
    ensures { option_map call_of result ≡ option_map an_offer (number_before rest.now) }
{
    let (number, text) = number_before(rest)?;
    Some(Call::Offer { text, number })
}

/// The call of a line `r OLD NEW`, with a tab between the two names.
fn read_rename(rest: &[u8]) -> Option<Call<'_>>
    ensures { option_map call_of result ≡ option_map a_rename (split_once (byte "\t") rest.now) }
{
    let (old, new) = split_once(rest, b'\t')?;
    Some(Call::Change(Change::Rename {
        old,
        new,
        mode: None,
    }))
}

/// The call that a line is, if it is one: `e NUMBER NAME`, `o NUMBER TEXT`, `r OLD NEW` with a tab between, or `d NAME`.
pub fn read_line(line: &[u8]) -> Option<Call<'_>>
    ensures { option_map call_of result ≡ read_line line.now }
{
    match line {
        [b'e', b' ', rest @ ..] => read_enter(rest),
        [b'o', b' ', rest @ ..] => read_offer(rest),
        [b'r', b' ', rest @ ..] => read_rename(rest),
        [b'd', b' ', rest @ ..] => Some(Call::Change(Change::Remove { name: rest })),
        _ => None,
    }
}

/// What the lines of an input are: of each whether it is a call, and the calls.
#[derive(Drop)]
pub struct Reading<'a> {
    pub are_calls: Vec<bool>,
    pub calls: Vec<Call<'a>>,
}

// The heap and the input are no one value: what is answered is allocated by the one, and read off the other.
/// Reads each line of an input once.
pub fn read_lines<'a>(heap: Global, input: &'a [u8]) -> Result<Reading<'a>, AllocError>
    ensures are_calls { IfOk result (λ r. r.are_calls.items ≡ are_calls (lines input.now)) }
    ensures calls { IfOk result (λ r. map call_of r.calls.items ≡ calls_in (lines input.now)) }
{
    let mut reading = Reading {
        are_calls: Vec::new(heap),
        calls: Vec::new(heap),
    };
    for line in Lines::of(input) {
        let call = read_line(line);
        reading.are_calls.push(call.is_some())?;
        if let Some(call) = call {
            reading.calls.push(call)?;
        }
    }
    Ok(reading)
}
