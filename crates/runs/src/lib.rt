//! Lists of calls on a register, and what holds after any of them.
#![tactic(auto)]

ghost use Rattle.std.specs.Prelude.{◌≡◌, ℕ, min, Bool, true, false, IsTrue, List, [], map, length, take, drop, Option};
ghost use Rattle.std.specs.Borrow.{Bor};
ghost use Rattle.std.proofs.lemmas.Bool.{false≢true};
ghost use Rattle.register_model.specs.Calls.{Call as CallMade, answer, no_entries, state_after};
ghost use Rattle.register_model.specs.Calls.Call.{enter as an_enter, offer as an_offer, remove as a_remove, rename as a_rename};
ghost use Rattle.register_model.specs.Claim.{Claim, Done, Holds, MendingLaws, OffersClaim, OffersExact, Ran};
ghost use Rattle.register_model.specs.Histories.{answers as answers_given, state_left};
ghost use Rattle.register.specs.Faults.{outcome_of};
ghost use Rattle.register.specs.Meanings.{unmended};
ghost use Rattle.register.specs.Registers.{IsMade, SameRules, entries_in, meaning_in, state_in};
ghost use Rattle.runs.specs.Listed.{call_of, change_of, first_done};

use filesystems::FileSystem;
use protections::Mode;
use register::Register;
use register::faults::Fault;
use rulebooks::{MendingRulebook, Rulebook};

/// A call that every register takes, with its arguments.
#[derive(Clone, Copy, Debug, PartialEq, Eq)]
pub enum Change<'a> {
    Enter {
        name: &'a [u8],
        number: u32,
        mode: Option<Mode>,
    },
    Rename {
        old: &'a [u8],
        new: &'a [u8],
        mode: Option<Mode>,
    },
    Remove {
        name: &'a [u8],
    },
}

/// A call that a register takes whose rulebook mends.
#[derive(Clone, Copy, Debug, PartialEq, Eq)]
pub enum Call<'a> {
    Change(Change<'a>),
    Offer { text: &'a [u8], number: u32 },
}

/// What a call answers: the place of the name, or why it is refused.
pub type Answer = Result<usize, Fault>;

/// A value that is a call on registers with rules `R`, over any file system.
pub trait Described<R: Rulebook>: Copy {
    // Which call it is.
    ghost call: { Self → CallMade };

    // Whether such a call may be an offer.
    ghost may_offer: { Bool };

    // What the rulebook mends a text to, which matters where such a call may be an offer.
    ghost mended: { List ℕ → List ℕ };

    // There the rulebook keeps the laws of one that mends.
    ghost mends: { IsTrue may_offer → MendingLaws R.Rulebook.meaning mended };
}

/// A call on a register with rules `R` and files `F`, with its arguments, which can be made.
pub trait Request<R: Rulebook, F: FileSystem>: Described<R> {
    /// Makes the call.
    fn make(self, register: &mut Register<R, F>) -> Answer
        ensures { IsMade Self.Described.mended register.old register.new (Self.Described.call self)
            result };
}

impl<'a, R: Rulebook> Described<R> for Change<'a> {
    ghost call = { change_of };

    ghost may_offer = { false };

    ghost mended = { unmended };

    ghost mends = { λ offers. absurd (false≢true offers) };
}

impl<'a, R: Rulebook, F: FileSystem> Request<R, F> for Change<'a> {
    // What each case is and does.
    fn make(self, register: &mut Register<R, F>) -> Answer
        ensures made { IsMade unmended register.old register.new (change_of self.entry) result }
        ensures made_alike { (mended : List ℕ → List ℕ)
            → IsMade mended register.old register.new (change_of self.entry) result }
        ensures enter { (name : Bor (List ℕ)) (number : ℕ) (mode : Option Mode)
            → self.entry ≡ Change.Enter name number mode
            → IsMade unmended register.old register.new (an_enter name.now number mode) result }
        ensures rename { (old new : Bor (List ℕ)) (mode : Option Mode)
            → self.entry ≡ Change.Rename old new mode
            → IsMade unmended register.old register.new (a_rename old.now new.now mode) result }
        ensures remove { (name : Bor (List ℕ)) → self.entry ≡ Change.Remove name
            → IsMade unmended register.old register.new (a_remove name.now) result }
        ensures call { (c : Change) → ⟦<Change<'a> as Described<R>>⟧.call c ≡ change_of c }
    {
        match self {
            Change::Enter { name, number, mode } => register.enter(name, number, mode),
            Change::Rename { old, new, mode } => register.rename(old, new, mode),
            Change::Remove { name } => register.remove(name),
        }
    }
}

impl<'a, R: MendingRulebook> Described<R> for Call<'a> {
    ghost call = { call_of };

    ghost may_offer = { true };

    ghost mended = { R.MendingRulebook.mended };

    ghost mends = { λ offers. record {
      always_allowed = R.always_allowed;
      no_longer = R.no_longer;
      allowed_stays = R.allowed_stays;
    } };
}

impl<'a, R: MendingRulebook, F: FileSystem> Request<R, F> for Call<'a> {
    // What each case is and does.
    fn make(self, register: &mut Register<R, F>) -> Answer
        ensures made { IsMade R.MendingRulebook.mended register.old register.new
            (call_of self.entry) result }
        ensures change { (change : Change) → self.entry ≡ Call.Change change
            → IsMade R.MendingRulebook.mended register.old register.new (change_of change) result }
        ensures offer { (text : Bor (List ℕ)) (number : ℕ) → self.entry ≡ Call.Offer text number
            → IsMade R.MendingRulebook.mended register.old register.new (an_offer text.now number)
            result }
        ensures call { (c : Call) → ⟦<Call<'a> as Described<R>>⟧.call c ≡ call_of c }
        ensures mended { (s : List ℕ)
            → ⟦<Call<'a> as Described<R>>⟧.mended s ≡ R.MendingRulebook.mended s }
        ensures may_offer { IsTrue ⟦<Call<'a> as Described<R>>⟧.may_offer }
    {
        match self {
            Call::Change(change) => change.make(register),
            Call::Offer { text, number } => register.offer(text, number),
        }
    }
}

/// Makes the calls of a list one by one, as many as there is room for answers, and answers how many these are. A list of
/// `Change` is for every register, and one of `Call`, which may hold offers, for a register whose rulebook mends.
pub fn perform<R: Rulebook, F: FileSystem, Q: Request<R, F>>(
    register: &mut Register<R, F>,
    calls: &[Q],
    answers: &mut [Answer],
) -> usize
    ensures count { result ≡ min (length calls.now) (length answers.old) }
    ensures answered { map outcome_of (take result answers.new)
        ≡ answers_given (meaning_in Q.Described.mended register.old) (state_in register.old)
        (map Q.Described.call (take result calls.now)) }
    ensures state { state_in register.new
        ≡ state_left (meaning_in Q.Described.mended register.old) (state_in register.old)
        (map Q.Described.call (take result calls.now)) }
    ensures ran { Ran (meaning_in Q.Described.mended register.old) (state_in register.old)
        (first_done Q.Described.call calls.now answers.new result) (state_in register.new) }
    ensures claim { state_in register.old ≡ no_entries
        → Claim (meaning_in Q.Described.mended register.old)
        (first_done Q.Described.call calls.now answers.new result) (state_in register.new) }
    ensures offers { IsTrue Q.Described.may_offer
        → OffersClaim (meaning_in Q.Described.mended register.old)
        (first_done Q.Described.call calls.now answers.new result) }
    ensures offers_exact { IsTrue Q.Described.may_offer → state_in register.old ≡ no_entries
        → OffersExact (meaning_in Q.Described.mended register.old)
        (first_done Q.Described.call calls.now answers.new result) }
    ensures rest { drop result answers.new ≡ drop result answers.old }
    ensures same_rules { SameRules register.old register.new }
{
    let count = calls.len().min(answers.len());
    // No zip with `answers.iter_mut()`: after it nothing is known of what it wrote.
    for (i, call) in calls[..count].iter().enumerate() {
        answers[i] = call.make(register);
    }
    count
}

/// How many entries a register keeps. What holds of every register holds of it, and whatever calls took it here from no entry,
/// made one by one, the claim holds of them: of offers with the text that the rulebook mends to.
pub fn audit<R: Rulebook, F: FileSystem>(register: &Register<R, F>) -> usize
    ensures count { result ≡ length (entries_in register.now) }
    ensures holds { Holds (meaning_in unmended register.now) (state_in register.now) }
    ensures claim { (mended : List ℕ → List ℕ) (ds : List Done)
        → Ran (meaning_in mended register.now) no_entries ds (state_in register.now)
        → Claim (meaning_in mended register.now) ds (state_in register.now) }
    ensures offers { (mended : List ℕ → List ℕ) → MendingLaws R.Rulebook.meaning mended
        → (ds : List Done)
        → Ran (meaning_in mended register.now) no_entries ds (state_in register.now)
        → OffersClaim (meaning_in mended register.now) ds }
    ensures offers_exact { (mended : List ℕ → List ℕ) → MendingLaws R.Rulebook.meaning mended
        → (ds : List Done)
        → Ran (meaning_in mended register.now) no_entries ds (state_in register.now)
        → OffersExact (meaning_in mended register.now) ds }
{
    register.count()
}
