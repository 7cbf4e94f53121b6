//! The characters of a byte string, by the Unicode Standard: the next one, and all of them in turn.
#![tactic(auto)]

ghost use Rattle.std.specs.Prelude.{◌≡◌, ◌≤◌, ◌++◌, length};
ghost use Rattle.std.specs.Option.{option_map, option_to_list};
ghost use Rattle.std.specs.List.{common_prefix_len};
ghost use Rattle.characters.specs.Table.{following_of, table, lies_in};
ghost use Rattle.characters.specs.Standard.{code_point_of, point, size, Standard, Only};
ghost use Rattle.characters.specs.Reader.{first_part, parts, IsTaken, Whole};

pub use sequence::Characters;

mod sequence;

/// What the front of a byte string gives.
// A replaced part is kind from a real U+FFFD, so both cases have a length: a struct with an optional code point would be no plainer.
#[derive(Clone, Copy, PartialEq, Eq, Debug)]
pub enum Part {
    /// A well-formed sequence of so many bytes, and its code point.
    Character { code_point: u32, length: usize },
    /// The longest start of a well-formed sequence, or a byte that begins none: U+FFFD takes its place.
    Replaced { length: usize },
}

impl Part {
    /// The code point of a character, and U+FFFD for a replaced part.
    pub fn code_point(&self) -> u32
        ensures { result ≡ point self.now }
    {
        match *self {
            Part::Character { code_point, .. } => code_point,
            Part::Replaced { .. } => 0xFFFD,
        }
    }

    /// The number of bytes taken.
    pub fn length(&self) -> usize
        ensures { result ≡ size self.now }
    {
        match *self {
            Part::Character { length, .. } => length,
            Part::Replaced { length } => length,
        }
    }
}

// The bytes from `low` to `high`, both included. A `RangeInclusive` also carries whether it is spent, for which the table of
// the Standard has no place.
#[derive(Clone, Copy)]
struct Range {
    low: u8,
    high: u8,
}

const CONTINUATION: Range = Range {
    low: 0x80,
    high: 0xBF,
};

// The narrower second bytes.
const AFTER_E0: Range = Range {
    low: 0xA0,
    high: 0xBF,
};

const AFTER_ED: Range = Range {
    low: 0x80,
    high: 0x9F,
};

const AFTER_F0: Range = Range {
    low: 0x90,
    high: 0xBF,
};

const AFTER_F4: Range = Range {
    low: 0x80,
    high: 0x8F,
};

impl Range {
    // Whether the byte is one of the range.
    fn contains(&self, byte: u8) -> bool
        ensures { result ≡ lies_in byte self.now }
    {
        (self.low..=self.high).contains(&byte)
    }
}

// The ranges of the bytes that follow a first byte, if a well-formed sequence begins with it.
fn following(first: u8) -> Option<&'static [Range]>
    ensures { option_map (λ x. x.now) result ≡ following_of table first }
{
    match first {
        0x00..=0x7F => Some(&[]),
        0xC2..=0xDF => Some(&[CONTINUATION]),
        0xE0 => Some(&[AFTER_E0, CONTINUATION]),
        0xE1..=0xEC | 0xEE..=0xEF => Some(&[CONTINUATION, CONTINUATION]),
        0xED => Some(&[AFTER_ED, CONTINUATION]),
        0xF0 => Some(&[AFTER_F0, CONTINUATION, CONTINUATION]),
        0xF1..=0xF3 => Some(&[CONTINUATION, CONTINUATION, CONTINUATION]),
        0xF4 => Some(&[AFTER_F4, CONTINUATION, CONTINUATION]),
        _ => None,
    }
}

// How many bytes at the front lie in the ranges, each in its own.
fn matching(bytes: &[u8], ranges: &[Range]) -> usize
    ensures value { result ≡ common_prefix_len lies_in bytes.now ranges.now }
    ensures bytes_bound { result ≤ length bytes.now }
    ensures ranges_bound { result ≤ length ranges.now }
{
    bytes
        .iter()
        .zip(ranges)
        .take_while(|(byte, range)| range.contains(**byte))
        .count()
}

// The number that the bits of a sequence spell. The bytes are known to fit their ranges, which `from_utf8` would look at again.
fn joined(sequence: &[u8]) -> u32
    ensures { result ≡ code_point_of sequence.now }
{
    match sequence {
        [a] => u32::from(*a),
        [a, b] => u32::from(*a % 32) * 64 + u32::from(*b % 64),
        [a, b, c] => u32::from(*a % 16) * 4096 + u32::from(*b % 64) * 64 + u32::from(*c % 64),
        [a, b, c, d] => {
            u32::from(*a % 8) * 262144
                + u32::from(*b % 64) * 4096
                + u32::from(*c % 64) * 64
                + u32::from(*d % 64)
        }
        _ => 0xFFFD,
    }
}

/// What stands at the front of `bytes`: none if there are no bytes.
pub fn step(bytes: &[u8]) -> Option<Part>
    ensures value { result ≡ first_part bytes.now }
    ensures standard { Standard bytes.now result }
    ensures only { Only bytes.now result }
{
    let (first, rest) = bytes.split_first()?;
    let Some(ranges) = following(*first) else {
        return Some(Part::Replaced { length: 1 });
    };
    let length = 1 + matching(rest, ranges);
    if length == 1 + ranges.len() {
        Some(Part::Character {
            code_point: joined(&bytes[..length]),
            length,
        })
    } else {
        Some(Part::Replaced { length })
    }
}

/// Takes the part at the front of `rest` off it: none, and nothing taken, if there are no bytes.
pub fn take_part(rest: &mut &[u8]) -> Option<Part>
    ensures parts { parts rest.old.now ≡ option_to_list result ++ parts rest.new.now }
    ensures taken { IsTaken rest.old.now result rest.new.now }
    ensures whole { Whole rest.old.now }
{
    let part = step(rest)?;
    *rest = &rest[part.length()..];
    Some(part)
}
