//! Every refusal by its number: what it says, what it carries, and what to do about it.
#![tactic(auto)]

ghost use Rattle.std.specs.Prelude.{◌≡◌, IfSome, IsSome};
ghost use Rattle.explanations.specs.Numbers.{known, number_of};
ghost use Rattle.explanations.specs.Remedies.{carries_of, remedy_of};
ghost use Rattle.explanations.specs.Texts.{text_of};

use filesystems::DeclareError;
use piles::PileError;
use protections::Verdict;
use register::faults::StateFault;
use words::NameRefusal;

mod remedies;

/// A refusal, by the error that has its number.
#[derive(Clone, Copy, Debug, PartialEq, Eq)]
pub enum AnyRefusal {
    /// Of a name or a tree path: 1 to 13, 21 and 28.
    Name(NameRefusal),
    /// Of a component, by a protection: 22 to 27.
    Component(Verdict),
    /// Of the mender: 31.
    Mender(mending::Error),
    /// Of a pair to declare: 33 and 44.
    Pair(DeclareError),
    /// Of a pile: 34.
    Pile(PileError),
    /// Of a register: 32, and 41 to 43.
    Register(StateFault),
}

impl AnyRefusal {
    /// The refusal of this number, if one has it. Of 41 the place is 0, since a number does not tell it.
    pub fn of(number: u8) -> Option<AnyRefusal>
        ensures one { result ≡ known number }
        ensures numbered { IfSome result (λ r. number_of r ≡ number) }
        ensures each { (r : AnyRefusal) → IsSome (known (number_of r)) }
    {
        Some(match number {
            22 => AnyRefusal::Component(Verdict::PathSeparator),
            23 => AnyRefusal::Component(Verdict::WindowsPathPrefix),
            24 => AnyRefusal::Component(Verdict::WindowsReservedName),
            25 => AnyRefusal::Component(Verdict::WindowsIllegalCharacter),
            26 => AnyRefusal::Component(Verdict::DotGitDir),
            27 => AnyRefusal::Component(Verdict::SymlinkedGitModules),
            31 => AnyRefusal::Mender(mending::Error::BufferTooShort),
            32 => AnyRefusal::Register(StateFault::TooLong),
            33 => AnyRefusal::Pair(DeclareError::ComponentTooLong),
            34 => AnyRefusal::Pile(PileError::TooManyLayers),
            41 => AnyRefusal::Register(StateFault::Met { place: 0 }),
            42 => AnyRefusal::Register(StateFault::Full),
            43 => AnyRefusal::Register(StateFault::NotKept),
            44 => AnyRefusal::Pair(DeclareError::TooManyPairs),
            _ => AnyRefusal::Name(NameRefusal::of(number)?),
        })
    }

    /// The number of the refusal.
    pub fn number(&self) -> u8
        ensures { result ≡ number_of self.now }
    {
        match self {
            AnyRefusal::Name(refusal) => refusal.number(),
            AnyRefusal::Component(verdict) => verdict.number(),
            AnyRefusal::Mender(error) => error.number(),
            AnyRefusal::Pair(error) => error.number(),
            AnyRefusal::Pile(error) => error.number(),
            AnyRefusal::Register(fault) => fault.number(),
        }
    }

    /// What the refusal says, in plain words, without what it carries.
    pub fn text(&self) -> &'static str
        ensures { result.now ≡ text_of self.now }
    {
        match self {
            AnyRefusal::Name(refusal) => refusal.text(),
            AnyRefusal::Component(verdict) => verdict.text(),
            AnyRefusal::Mender(error) => error.text(),
            AnyRefusal::Pair(error) => error.text(),
            AnyRefusal::Pile(error) => error.text(),
            AnyRefusal::Register(fault) => fault.text(),
        }
    }

    /// What the refusal carries besides its number, in plain words.
    pub fn carries(&self) -> &'static str
        ensures { result.now ≡ carries_of self.now }
    {
        match self {
            AnyRefusal::Name(NameRefusal::InvalidByte) => {
                "the byte: one below 0x20, 0x7F, a space, a backslash or one of ^ : [ ? ~"
            }
            AnyRefusal::Name(NameRefusal::Reserved) => "the name",
            AnyRefusal::Name(NameRefusal::EmptyComponent | NameRefusal::RelativeComponent) => {
                "in a tree path the index of the component, counted from 0"
            }
            AnyRefusal::Component(_) => "in a register the index of the component, counted from 0",
            AnyRefusal::Register(StateFault::Met { .. }) =>
                "the place of the first such name, counted from 0",
            _ => "nothing",
        }
    }

    /// What to do about the refusal, in plain words.
    pub fn remedy(&self) -> &'static str
        ensures { result.now ≡ remedy_of self.now }
    {
        match self {
            AnyRefusal::Name(refusal) => remedies::of_name(*refusal),
            AnyRefusal::Component(verdict) => remedies::of_component(*verdict),
            AnyRefusal::Mender(mending::Error::BufferTooShort) => {
                "pass a buffer of as many bytes as the text has, and at least one"
            }
            AnyRefusal::Pair(DeclareError::ComponentTooLong) => {
                "declare components of at most 32 bytes"
            }
            AnyRefusal::Pair(DeclareError::TooManyPairs) => {
                "declare at most 16 pairs: one that is declared twice counts twice"
            }
            AnyRefusal::Pile(PileError::TooManyLayers) => {
                "name each layer once: a second time it changes nothing"
            }
            AnyRefusal::Register(fault) => remedies::of_register(*fault),
        }
    }
}
