//! The scanner of names: its state is what the byte before was.
ghost use Rattle.std.specs.Prelude.{◌≡◌, ℕ};
ghost use Rattle.tag.specs.Errors.{answer_of};
ghost use Rattle.tag.specs.Names.{fault_after};
ghost use Rattle.tag.specs.Scanning.{after, ordinary};

use super::Error;

/// What the byte before the next one was.
#[derive(Clone, Copy, Debug, PartialEq, Eq)]
pub enum Scanner {
    AfterDot,
    AfterSlash,
    AfterAt,
    AfterOther,
}

impl Scanner {
    /// The state that `byte` leaves.
    fn after(byte: u8) -> Scanner
        ensures { result ≡ after byte }
    {
        match byte {
            b'.' => Scanner::AfterDot,
            b'/' => Scanner::AfterSlash,
            b'@' => Scanner::AfterAt,
            _ => Scanner::AfterOther,
        }
    }

    /// Reads the next byte, and answers the fault that it has after the byte before it. The state moves on either way. An
    /// ordinary byte has no fault, so it is passed at once.
    pub fn step(&mut self, byte: u8) -> Result<(), Error>
        ensures moves { self.new ≡ after byte }
        ensures finds { (a : ℕ) → self.old ≡ after a → answer_of result ≡ fault_after a byte }
    {
        if ordinary(byte) {
            *self = Scanner::AfterOther;
            return Ok(());
        }
        let before = *self;
        *self = Scanner::after(byte);
        match (before, byte) {
            (_, 0..=0x1f | 0x7f | b' ' | b'\\' | b'^' | b':' | b'[' | b'?' | b'~') => {
                Err(Error::InvalidByte(byte))
            }
            (_, b'*') => Err(Error::Asterisk),
            (Scanner::AfterDot, b'.') => Err(Error::RepeatedDot),
            (Scanner::AfterSlash, b'.') => Err(Error::StartsWithDot),
            (Scanner::AfterSlash, b'/') => Err(Error::RepeatedSlash),
            (Scanner::AfterAt, b'{') => Err(Error::ReflogPortion),
            _ => Ok(()),
        }
    }
}

/// Each byte at its place, 32 to a row: `o` for an ordinary one, and `-` for any other.
// With a pattern in its place, tried, the checks of names take four times as long.
const CHART: [u8; 256] = *b"\
    --------------------------------\
    -ooooooooo-ooo--oooooooooo-oooo-\
    -oooooooooooooooooooooooooo--o-o\
    ooooooooooooooooooooooooooo-oo--\
    oooooooooooooooooooooooooooooooo\
    oooooooooooooooooooooooooooooooo\
    oooooooooooooooooooooooooooooooo\
    oooooooooooooooooooooooooooooooo";

/// Whether the byte is ordinary: it has no fault after any byte, and a step over it leaves `AfterOther`.
pub fn ordinary(byte: u8) -> bool
    ensures { result ≡ ordinary byte }
{
    // With `usize::from` the proof would have to name the chart's list, and no name in a proof reaches it.
    CHART[byte as usize] == b'o'
}
