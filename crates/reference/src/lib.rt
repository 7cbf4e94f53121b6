//! Reference names: their errors, the checks of partial, complete and branch names, and the mender of partial ones.
#![tactic(auto)]

ghost use Rattle.std.specs.Prelude.{◌≡◌, ℕ, ◌≤◌, ◌↔◌, List, length, take, is_ok, IfOk, IsTrue};
ghost use Rattle.tag.specs.Answers.{Answer, IsFirst, Value, number_of};
ghost use Rattle.tag.specs.Answers.Answer.{allowed};
ghost use Rattle.mending.specs.Mender.{buffer_after, length_or_error, mended, room};
ghost use Rattle.mending.specs.Mends.{Mends};
ghost use Rattle.reference.specs.Errors.{Lends, Shared, answer_of, from_tag, refusal};
ghost use Rattle.reference.specs.Manual.{BranchRules, CompleteRules, PartialRules};
ghost use Rattle.reference.specs.Names.{branch_name, complete_name, is_capital, is_complete, kept_from_branches, partial_name};
ghost use Rattle.reference.specs.Refusals.{AppliesToBranch, AppliesToComplete, AppliesToPartial};

pub mod display;

/// Why a reference name is refused. The cases keep the numbers 1 to 13, in this order.
#[derive(Clone, Copy, Debug, PartialEq, Eq)]
pub enum Error<'a> {
    InvalidByte(u8),
    StartsWithSlash,
    RepeatedSlash,
    RepeatedDot,
    LockFileSuffix,
    ReflogPortion,
    Asterisk,
    StartsWithDot,
    EndsWithDot,
    EndsWithSlash,
    Empty,
    SomeLowercase,
    /// The refused name, as it was passed.
    Reserved(&'a [u8]),
}

// The errors keep the ported crate's case names, a fixed form (docs/DECISIONS.md), so eleven cases stand in both enums. This and
// `tag_error` list their pairs, each in one direction.
impl<'a> From<tag::Error> for Error<'a> {
    ghost from_gives = { λ e r. r ≡ from_tag e };

    fn from(error: tag::Error) -> Error<'a> {
        match error {
            tag::Error::InvalidByte(byte) => Error::InvalidByte(byte),
            tag::Error::StartsWithSlash => Error::StartsWithSlash,
            tag::Error::RepeatedSlash => Error::RepeatedSlash,
            tag::Error::RepeatedDot => Error::RepeatedDot,
            tag::Error::LockFileSuffix => Error::LockFileSuffix,
            tag::Error::ReflogPortion => Error::ReflogPortion,
            tag::Error::Asterisk => Error::Asterisk,
            tag::Error::StartsWithDot => Error::StartsWithDot,
            tag::Error::EndsWithDot => Error::EndsWithDot,
            tag::Error::EndsWithSlash => Error::EndsWithSlash,
            tag::Error::Empty => Error::Empty,
        }
    }
}

impl Error<'_> {
    /// The number of the refusal.
    pub fn number(&self) -> u8
        ensures { result ≡ number_of (refusal self.now) }
    {
        match self {
            Error::SomeLowercase => 12,
            Error::Reserved(_) => 13,
            // Each other case is a tag name's, so no error has the number 0.
            _ => self.tag_error().map_or(0, |error| error.number()),
        }
    }

    /// The same error of a tag name, where tag names have it.
    pub fn tag_error(&self) -> Option<tag::Error>
        ensures { Shared result self.now }
    {
        match self {
            Error::InvalidByte(byte) => Some(tag::Error::InvalidByte(*byte)),
            Error::StartsWithSlash => Some(tag::Error::StartsWithSlash),
            Error::RepeatedSlash => Some(tag::Error::RepeatedSlash),
            Error::RepeatedDot => Some(tag::Error::RepeatedDot),
            Error::LockFileSuffix => Some(tag::Error::LockFileSuffix),
            Error::ReflogPortion => Some(tag::Error::ReflogPortion),
            Error::Asterisk => Some(tag::Error::Asterisk),
            Error::StartsWithDot => Some(tag::Error::StartsWithDot),
            Error::EndsWithDot => Some(tag::Error::EndsWithDot),
            Error::EndsWithSlash => Some(tag::Error::EndsWithSlash),
            Error::Empty => Some(tag::Error::Empty),
            Error::SomeLowercase | Error::Reserved(_) => None,
        }
    }
}

/// Whether this byte is one of A to Z or an underscore.
fn capital(byte: u8) -> bool
    ensures { result ≡ is_capital byte }
{
    matches!(byte, b'A'..=b'Z' | b'_')
}

/// Whether a partial name is complete: it has a slash, or it is all of A to Z and underscores.
fn complete(input: &[u8]) -> bool
    ensures { result ≡ is_complete input.now }
{
    input.contains(&b'/') || input.iter().all(|byte| capital(*byte))
}

/// Whether no branch may have the name: `refs/heads/HEAD`, and a branch that begins with a dash.
fn kept_from_branches(input: &[u8]) -> bool
    ensures { result ≡ kept_from_branches input.now }
{
    input == b"refs/heads/HEAD".as_slice() || input.starts_with(b"refs/heads/-")
}

// The three checks have a clause `view` each: one fact of each answer.
/// Whether `input` is an allowed partial name: then it is the answer itself, and else the first refusal is.
pub fn name_partial(input: &[u8]) -> Result<&[u8], Error<'_>>
    ensures answer { answer_of result ≡ partial_name input.now }
    ensures first { IsFirst (AppliesToPartial input.now) (answer_of result) }
    ensures no_other { (a : Answer Value)
        → IsFirst (AppliesToPartial input.now) a → a ≡ answer_of result }
    ensures view { Lends input.entry result }
    ensures manual { IsTrue (is_ok result) ↔ PartialRules input.now }
{
    tag::name(input)?;
    if input == b"@".as_slice() {
        return Err(Error::Reserved(input));
    }
    Ok(input)
}

/// Whether `input` is an allowed complete name: then it is the answer itself, and else the first refusal is.
pub fn name(input: &[u8]) -> Result<&[u8], Error<'_>>
    ensures answer { answer_of result ≡ complete_name input.now }
    ensures first { IsFirst (AppliesToComplete input.now) (answer_of result) }
    ensures no_other { (a : Answer Value)
        → IsFirst (AppliesToComplete input.now) a → a ≡ answer_of result }
    ensures view { Lends input.entry result }
    ensures manual { IsTrue (is_ok result) ↔ CompleteRules input.now }
{
    name_partial(input)?;
    if !complete(input) {
        return Err(Error::SomeLowercase);
    }
    Ok(input)
}

/// Whether `input` is an allowed branch name: then it is the answer itself, and else the first refusal is.
pub fn branch_name(input: &[u8]) -> Result<&[u8], Error<'_>>
    ensures answer { answer_of result ≡ branch_name input.now }
    ensures first { IsFirst (AppliesToBranch input.now) (answer_of result) }
    ensures no_other { (a : Answer Value)
        → IsFirst (AppliesToBranch input.now) a → a ≡ answer_of result }
    ensures view { Lends input.entry result }
    ensures manual { IsTrue (is_ok result) ↔ BranchRules input.now }
{
    name(input)?;
    if kept_from_branches(input) {
        return Err(Error::Reserved(input));
    }
    Ok(input)
}

/// Mends `input` into a handle at the front of the buffer, an allowed partial name, and answers its length. The bytes after
/// it become zero, up to the length of the input and at least one; later bytes stay. A shorter buffer is refused and stays.
pub fn name_partial_or_sanitize(input: &[u8], out: &mut [u8]) -> Result<usize, mending::Error>
    ensures answer { result ≡ length_or_error (mended input.now) input.now (length out.old) }
    ensures buffer { out.new ≡ buffer_after (mended input.now) input.now out.old }
    ensures text { IfOk result (λ n. take n out.new ≡ mended input.now) }
    ensures mends { IfOk result (λ n. Mends input.now (take n out.new)) }
    ensures no_other { IfOk result (λ n. (t : List ℕ) → Mends input.now t → t ≡ take n out.new) }
    ensures always_allowed { IfOk result (λ n. partial_name (take n out.new) ≡ allowed) }
    ensures no_longer { IfOk result (λ n. n ≤ room input.now) }
    ensures allowed_stays { partial_name input.now ≡ allowed
        → IfOk result (λ n. take n out.new ≡ input.now) }
    ensures mended_again { IfOk result (λ n. mended (take n out.new) ≡ take n out.new) }
    ensures mended_twice { mended (mended input.now) ≡ mended input.now }
{
    mending::mend(input, out)
}
