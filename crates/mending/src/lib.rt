//! The mender: makes a handle, an allowed partial name, of any bytes, in a caller's buffer.
#![tactic(auto)]

ghost use Rattle.std.specs.Prelude.{◌≡◌, ℕ, ◌-◌, List, ◌++◌, Some, length, take, replicate, IfOk, ◌≢◌, option_to_list};
ghost use Rattle.std.specs.Str.{byte};
ghost use Rattle.tag.specs.Scanning.{after};
ghost use Rattle.mending.specs.Errors.{number_of, text_of};
ghost use Rattle.mending.specs.Mender.{buffer_after, length_or_error, mended, replacement, room};
ghost use Rattle.mending.specs.Mends.{Mends};

use std::fmt;
use tag::scanner::Scanner;
use text::Text;

mod text;

/// Why a text is not mended.
#[derive(Clone, Copy, Debug, PartialEq, Eq)]
pub enum Error {
    /// The buffer is shorter than the input, or has no byte.
    BufferTooShort = 31,
}

impl Error {
    /// The number of the refusal.
    pub fn number(&self) -> u8
        ensures { result ≡ number_of self.now }
    {
        *self as u8
    }

    /// What the refusal says, in plain words.
    pub fn text(&self) -> &'static str
        ensures { result.now ≡ text_of self.now }
    {
        match *self {
            Error::BufferTooShort =>
                "the buffer must have as many bytes as the text, and at least one",
        }
    }
}

/// The text of the refusal.
impl fmt::Display for Error {
    ghost output = { λ e. Some (text_of e) };

    fn fmt<W: fmt::Write>(&self, f: &mut fmt::Formatter<W>) -> fmt::Result {
        f.write_str(self.text())
    }
}

impl std::error::Error for Error {}

/// What stands for the next byte of a component, if anything: a byte with no fault stays, a dot after a dot vanishes, and
/// a byte with any other fault becomes a dash.
fn mended_byte(scanner: &mut Scanner, next_byte: u8) -> Option<u8>
    ensures moves { scanner.new ≡ after next_byte }
    ensures mends { (a : ℕ) → scanner.old ≡ after a → next_byte ≢ byte "/"
        → option_to_list result ≡ replacement a next_byte }
{
    match scanner.step(next_byte) {
        Ok(()) => Some(next_byte),
        Err(tag::Error::RepeatedDot) => None,
        Err(_) => Some(b'-'),
    }
}

/// Mends `input` into a buffer of just the room that it has to have, and clears what the text leaves of it.
fn fill_room(input: &[u8], front: &mut [u8]) -> usize
    requires { length front.old ≡ room input.now }
    ensures text { result ≡ length (mended input.now) }
    ensures buffer { front.new ≡ mended input.now ++ replicate (room input.now - result) 0 }
{
    let mut text = Text::new(front);
    text.push_components(input);
    text.mend_ends();
    text.finish()
}

/// Mends `input` into the front of the buffer, and answers the length of the text there. The bytes after it become zero, up
/// to the length of the input and at least one; later bytes stay. A shorter buffer is refused and stays as it was.
pub fn mend(input: &[u8], out: &mut [u8]) -> Result<usize, Error>
    ensures answer { result ≡ length_or_error (mended input.now) input.now (length out.old) }
    ensures buffer { out.new ≡ buffer_after (mended input.now) input.now out.old }
    ensures mends { IfOk result (λ n. Mends input.now (take n out.new)) }
    ensures no_other { IfOk result (λ n. (t : List ℕ) → Mends input.now t → t ≡ take n out.new) }
{
    let needed = input.len().max(1);
    // With `get_mut` and `ok_or` the proof of what the whole buffer holds did not close.
    if out.len() < needed {
        return Err(Error::BufferTooShort);
    }
    Ok(fill_room(input, &mut out[..needed]))
}
