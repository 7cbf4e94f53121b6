//! Rulebooks: which byte strings are names, by kind, and which text a mending rulebook makes of any bytes.
#![tactic(auto)]

ghost use Rattle.std.specs.Prelude.{◌≡◌, ℕ, ◌≤◌, max, List, [], length, take, IfOk, IfErr, OnOk, ◌≢◌, Contains};
ghost use Rattle.tag.specs.Answers.{Answer};
ghost use Rattle.tag.specs.Answers.Answer.{allowed, refused};
ghost use Rattle.tag.specs.Components.{components};
ghost use Rattle.tag.specs.Errors as tag_errors;
ghost use Rattle.mending.specs.Mender.{buffer_after, length_or_error};
ghost use Rattle.reference.specs.Errors as reference_errors;
ghost use Rattle.rulebooks.specs.Refusals.{fault_ruling, ruling_in, ruling_of};
ghost use Rattle.rulebooks.specs.Rulings.{IsValueFor, ruling};

mod manual;
pub mod names;
mod told;
pub mod trees;

pub use manual::{ManualRulebook, ask_by_manual};

/// A refusal by a rulebook. A rulebook of another crate gives numbers of its own, and a fault is a kind, a number and a value, a
/// fixed form (docs/DECISIONS.md): so it is no enum.
#[derive(Clone, Copy, Debug, PartialEq, Eq)]
pub struct Refusal {
    pub number: u8,
    /// 0, unless the number is 1, 21 or 28: of the kinds here the invalid byte, or the index of the component.
    pub value: usize,
}

/// Which byte strings are names. All values of a type mean the same.
pub trait Rulebook {
    /// The number of the kind. A number, since a rulebook of another crate has a kind of its own: a fixed form, docs/DECISIONS.md.
    const KIND: u8;

    // The same number in contracts; the check proves that the two are equal.
    ghost KIND: { ℕ };

    ghost meaning: { List ℕ → Answer ℕ };

    /// Whether `name` is allowed, and else the refusal.
    fn check(&self, name: &[u8]) -> Result<(), Refusal>
        ensures { ruling_of result ≡ meaning name.now };

    // An allowed name has no empty component.
    ghost no_empty_component: { (s c : List ℕ) → meaning s ≡ allowed
        → Contains (components s) c → c ≢ [] };

    // A refusal has a value only where its number is 1, 21 or 28.
    ghost value_fits: { (s : List ℕ) (n v : ℕ) → meaning s ≡ refused n v → IsValueFor n v };
}

/// A rulebook that makes an allowed name of any bytes.
pub trait MendingRulebook: Rulebook {
    ghost mended: { List ℕ → List ℕ };

    // The text and the buffer stand side by side in each call that mends, as in the ported crate's: they are no one value.
    /// Writes the mended text of `text` to the front of the buffer, and answers its length.
    fn mend(&self, text: &[u8], out: &mut [u8]) -> Result<usize, mending::Error>
        ensures answer { result ≡ length_or_error (mended text.now) text.now (length out.old) }
        ensures buffer { out.new ≡ buffer_after (mended text.now) text.now out.old };

    ghost always_allowed: { (s : List ℕ) → Self.Rulebook.meaning (mended s) ≡ allowed };

    ghost no_longer: { (s : List ℕ) → length (mended s) ≤ max 1 (length s) };

    ghost allowed_stays: { (s : List ℕ) → Self.Rulebook.meaning s ≡ allowed → mended s ≡ s };
}

// An arm for the case that has a byte and one for all others.
impl<'a> From<reference::Error<'a>> for Refusal {
    ghost from_gives = { λ e r. ruling_in r ≡ ruling (reference_errors.refusal e) };

    fn from(error: reference::Error<'a>) -> Refusal {
        // Of all the values a refusal of a rulebook has the invalid byte alone.
        let value = match error {
            reference::Error::InvalidByte(byte) => usize::from(byte),
            _ => 0,
        };
        Refusal {
            number: error.number(),
            value,
        }
    }
}

impl From<tag::Error> for Refusal {
    ghost from_gives = { λ e r. ruling_in r ≡ ruling (tag_errors.refusal e) };

    fn from(error: tag::Error) -> Refusal {
        Refusal::from(reference::Error::from(error))
    }
}

/// A refusal with the kind of the rulebook that gave it.
#[derive(Clone, Copy, Debug, PartialEq, Eq)]
pub struct RulebookFault {
    // A number like `Rulebook::KIND`: a fixed form, docs/DECISIONS.md.
    pub kind: u8,
    pub refusal: Refusal,
}

/// Asks a rulebook whether `name` is allowed; a refusal tells the rulebook's kind.
pub fn ask<R: Rulebook>(rules: &R, name: &[u8]) -> Result<(), RulebookFault>
    ensures answer { fault_ruling result ≡ R.Rulebook.meaning name.now }
    ensures kind { IfErr result (λ f. f.kind ≡ R.Rulebook.KIND) }
    ensures no_empty_component { OnOk result
        ((c : List ℕ) → Contains (components name.now) c → c ≢ []) }
    ensures value_fits { IfErr result (λ f. IsValueFor f.refusal.number f.refusal.value) }
{
    rules.check(name).map_err(|refusal| RulebookFault {
        kind: R::KIND,
        refusal,
    })
}

/// Mends `text` by a mending rulebook: an allowed name at the front of the buffer, whose length is the answer.
pub fn mend_into<R: MendingRulebook>(
    rules: &R,
    text: &[u8],
    out: &mut [u8],
) -> Result<usize, mending::Error>
    ensures answer { result
        ≡ length_or_error (R.MendingRulebook.mended text.now) text.now (length out.old) }
    ensures buffer { out.new ≡ buffer_after (R.MendingRulebook.mended text.now) text.now out.old }
    ensures text { IfOk result (λ n. take n out.new ≡ R.MendingRulebook.mended text.now) }
    ensures always_allowed { IfOk result (λ n. R.Rulebook.meaning (take n out.new) ≡ allowed) }
    ensures no_longer { IfOk result (λ n. n ≤ max 1 (length text.now)) }
    ensures allowed_stays { R.Rulebook.meaning text.now ≡ allowed
        → IfOk result (λ n. take n out.new ≡ text.now) }
{
    rules.mend(text, out)
}
