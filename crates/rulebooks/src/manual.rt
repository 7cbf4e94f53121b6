//! Rulebooks whose names are those that the manual's rules allow, and the question that answers by those rules.
ghost use Rattle.std.specs.Prelude.{◌≡◌, ◌↔◌, ℕ, List, [], IsOk, IfErr, OnOk, ◌≢◌, Contains};
ghost use Rattle.tag.specs.Answers.Answer.{allowed};
ghost use Rattle.tag.specs.Components.{components};
ghost use Rattle.rulebooks.specs.Refusals.{fault_ruling};
ghost use Rattle.rulebooks.specs.Rulings.{IsValueFor};

use super::{Rulebook, RulebookFault, ask};

/// A rulebook that allows the names that keep the rules of the manual, and no others.
pub trait ManualRulebook: Rulebook {
    // What the manual asks of a name.
    ghost rules: { List ℕ → Type 0 };

    // A name is allowed exactly where it keeps the rules.
    ghost ruled: { (s : List ℕ) → (Self.Rulebook.meaning s ≡ allowed) ↔ rules s };
}

/// Asks a rulebook of the manual whether `name` is allowed: it is exactly where it keeps the manual's rules.
pub fn ask_by_manual<R: ManualRulebook>(rules: &R, name: &[u8]) -> Result<(), RulebookFault>
    ensures answer { fault_ruling result ≡ R.Rulebook.meaning name.now }
    ensures kind { IfErr result (λ f. f.kind ≡ R.Rulebook.KIND) }
    ensures no_empty_component { OnOk result
        ((c : List ℕ) → Contains (components name.now) c → c ≢ []) }
    ensures value_fits { IfErr result (λ f. IsValueFor f.refusal.number f.refusal.value) }
    ensures manual { IsOk result ↔ R.ManualRulebook.rules name.now }
{
    // The first four clauses are those of `ask`: a definition for both would need the answer, the rulebook and the name.
    ask(rules, name)
}
