//! Why a register refuses a call: by its rulebook, by its file system, or by what it keeps.
ghost use Rattle.std.specs.Prelude.{◌≡◌, Some};
ghost use Rattle.register_model.specs.Calls.{number_of};
ghost use Rattle.register.specs.Faults.{fault_in, own_fault};
ghost use Rattle.register.specs.Words.{state_text, state_words, words_of};
ghost use Rattle.register.specs.declared.faults.Fault.TheVariants.{Rulebook, State};

use protections::Verdict;
use rulebooks::RulebookFault;
use std::fmt;
use words::{Carried, Sentence};

/// Why the register itself refuses a call.
#[derive(Clone, Copy, Debug, PartialEq, Eq)]
pub enum StateFault {
    /// The name or text is longer than 255 bytes.
    TooLong,
    /// A kept name meets the new one: the first such name has this place.
    Met { place: usize },
    /// 128 names are kept.
    Full,
    /// The name to rename or remove is not kept.
    NotKept,
}

/// Why a call is refused.
#[derive(Clone, Copy, Debug, PartialEq, Eq)]
pub enum Fault {
    /// The rulebook refuses the name.
    Rulebook(RulebookFault),
    /// The file system refuses the component of the name that has this index, counted from 0.
    Component { verdict: Verdict, index: usize },
    /// The register refuses the call.
    State(StateFault),
}

impl StateFault {
    /// The number of the refusal.
    // A table, since the cases of an enum of which one carries a place have no numbers of their own.
    pub fn number(&self) -> u8
        ensures { result ≡ number_of (own_fault self.now) }
    {
        match *self {
            StateFault::TooLong => 32,
            StateFault::Met { .. } => 41,
            StateFault::Full => 42,
            StateFault::NotKept => 43,
        }
    }

    /// What the refusal says, in plain words, without the place.
    pub fn text(&self) -> &'static str
        ensures { result.now ≡ state_text self.now }
    {
        match *self {
            StateFault::TooLong => "a name or text for the register may have at most 255 bytes",
            StateFault::Met { .. } => "a kept name meets this one",
            StateFault::Full => "the register is full: it keeps 128 names",
            StateFault::NotKept => "the name to rename or remove is not kept",
        }
    }
}

impl Fault {
    /// The number of the refusal.
    pub fn number(&self) -> u8
        ensures { result ≡ number_of (fault_in self.now) }
    {
        match *self {
            Fault::Rulebook(fault) => fault.refusal.number,
            Fault::Component { verdict, .. } => verdict.number(),
            Fault::State(fault) => fault.number(),
        }
    }
}

/// The sentence of the refusal; that of a name that meets a kept one tells the kept one's place.
impl fmt::Display for StateFault {
    ghost output = { λ s. Some (state_words s) };

    fn fmt<W: fmt::Write>(&self, f: &mut fmt::Formatter<W>) -> fmt::Result {
        let carried = match *self {
            StateFault::Met { place } => Carried::Place(place),
            _ => Carried::Nothing,
        };
        let sentence = Sentence {
            text: self.text(),
            carried,
        };
        sentence.fmt(f)
    }
}

impl std::error::Error for StateFault {}

/// The sentence of the refusal; that of a component tells its index.
impl fmt::Display for Fault {
    ghost output = { λ s. Some (words_of s) };

    fn fmt<W: fmt::Write>(&self, f: &mut fmt::Formatter<W>) -> fmt::Result {
        match *self {
            Fault::Rulebook(fault) => fault.fmt(f),
            Fault::Component { verdict, index } => {
                let sentence = Sentence {
                    text: verdict.text(),
                    carried: Carried::Component(index),
                };
                sentence.fmt(f)
            }
            Fault::State(fault) => fault.fmt(f),
        }
    }
}

impl std::error::Error for Fault {}

impl From<RulebookFault> for Fault {
    ghost from_gives = { λ f r. r ≡ Rulebook f };

    fn from(fault: RulebookFault) -> Fault {
        Fault::Rulebook(fault)
    }
}

impl From<StateFault> for Fault {
    ghost from_gives = { λ f r. r ≡ State f };

    fn from(fault: StateFault) -> Fault {
        Fault::State(fault)
    }
}
