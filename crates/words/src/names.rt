//! The refusals of names, by their numbers, with the text of each.
ghost use Rattle.std.specs.Prelude.{◌≡◌, Some};
ghost use Rattle.words.specs.Numbers.{known, number_of};
ghost use Rattle.words.specs.Texts.{text_by, text_of};

/// A refusal of a name, or of a tree path by one of its components. Each case has the number by which rulebooks refuse.
#[derive(Clone, Copy, Debug, PartialEq, Eq)]
pub enum NameRefusal {
    InvalidByte = 1,
    StartsWithSlash = 2,
    RepeatedSlash = 3,
    RepeatedDot = 4,
    LockFileSuffix = 5,
    ReflogPortion = 6,
    Asterisk = 7,
    StartsWithDot = 8,
    EndsWithDot = 9,
    EndsWithSlash = 10,
    Empty = 11,
    SomeLowercase = 12,
    Reserved = 13,
    EmptyComponent = 21,
    RelativeComponent = 28,
}

impl NameRefusal {
    /// The refusal of this number, if it is one of these.
    pub fn of(number: u8) -> Option<NameRefusal>
        ensures one { result ≡ known number }
        ensures each { (r : NameRefusal) → known (number_of r) ≡ Some r }
    {
        Some(match number {
            1 => NameRefusal::InvalidByte,
            2 => NameRefusal::StartsWithSlash,
            3 => NameRefusal::RepeatedSlash,
            4 => NameRefusal::RepeatedDot,
            5 => NameRefusal::LockFileSuffix,
            6 => NameRefusal::ReflogPortion,
            7 => NameRefusal::Asterisk,
            8 => NameRefusal::StartsWithDot,
            9 => NameRefusal::EndsWithDot,
            10 => NameRefusal::EndsWithSlash,
            11 => NameRefusal::Empty,
            12 => NameRefusal::SomeLowercase,
            13 => NameRefusal::Reserved,
            21 => NameRefusal::EmptyComponent,
            28 => NameRefusal::RelativeComponent,
            _ => return None,
        })
    }

    /// The number by which rulebooks refuse.
    pub fn number(&self) -> u8
        ensures { result ≡ number_of self.now }
    {
        *self as u8
    }

    /// What the refusal says, in plain words, without what it carries.
    pub fn text(&self) -> &'static str
        ensures { result.now ≡ text_of self.now }
    {
        match *self {
            NameRefusal::InvalidByte => "a name may not have this byte",
            NameRefusal::StartsWithSlash => "a name may not start with a slash",
            NameRefusal::RepeatedSlash => "a name may not have two slashes in a row",
            NameRefusal::RepeatedDot => "a name may not have two dots in a row",
            NameRefusal::LockFileSuffix => "no part of a name may end in .lock",
            NameRefusal::ReflogPortion => "a name may not have an at sign before an opening brace",
            NameRefusal::Asterisk => "a name may not have an asterisk",
            NameRefusal::StartsWithDot => "no part of a name may start with a dot",
            NameRefusal::EndsWithDot => "a name may not end with a dot",
            NameRefusal::EndsWithSlash => "a name may not end with a slash",
            NameRefusal::Empty => "a name may not be empty",
            NameRefusal::SomeLowercase =>
                "a name with no slash must be of capital letters and underscores, like HEAD",
            NameRefusal::Reserved => "this name is reserved",
            NameRefusal::EmptyComponent => "the name is empty",
            NameRefusal::RelativeComponent =>
                "the names . and .. mean a directory and the one above it",
        }
    }
}

/// What the refusal of a name by this number says, in plain words, without what it carries. A rulebook of another crate gives numbers
/// of its own: for such a number the text says so.
pub fn text(number: u8) -> &'static str
    ensures { result.now ≡ text_by number }
{
    NameRefusal::of(number).map_or(
        "the rulebook forbids the name by a rule of its own",
        |refusal| refusal.text(),
    )
}
