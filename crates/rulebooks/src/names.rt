//! The rulebooks of reference names and tag names, kinds 1 to 4.
ghost use Rattle.std.specs.Prelude.{◌≡◌, ◌↔◌, ℕ, List, IsOk, IfErr};
ghost use Rattle.std.proofs.Common.{ap};
ghost use Rattle.tag.specs.Manual.{Rules};
ghost use Rattle.tag.specs.Names.{tag_name};
ghost use Rattle.tag.proofs.Rules.{allowed_from_rules, rules_from_allowed};
ghost use Rattle.mending.specs.Mender.{mended as mended_handle};
ghost use Rattle.mending.proofs.Laws.{mended_short};
ghost use Rattle.reference.specs.Manual.{BranchRules, CompleteRules, PartialRules};
ghost use Rattle.reference.specs.Names.{branch_name, complete_name, partial_name};
ghost use Rattle.reference.proofs.Handles.{allowed_unchanged, mended_allowed};
ghost use Rattle.reference.proofs.Manual.{branch_allows, complete_allows, partial_allows};
ghost use Rattle.rulebooks.specs.LawLemmas.{branch_value, complete_value, partial_value, rules_decided, rules_no_empty, ruling_allows, tag_value};
ghost use Rattle.rulebooks.specs.Kinds.{branch_names, complete_names, partial_names, tag_names};
ghost use Rattle.rulebooks.specs.Refusals.{fault_ruling};
ghost use Rattle.rulebooks.specs.Rulings.{ruling};

use super::{ManualRulebook, MendingRulebook, Refusal, Rulebook, RulebookFault, ask_by_manual};

// Each kind has impls of its own, and a call that says in full what they mean: they differ in the number, the call and the laws, and
// have nothing else.

/// Kind 1: partial reference names.
#[derive(Clone, Copy, Debug)]
pub struct PartialNames;

impl Rulebook for PartialNames {
    const KIND: u8 = 1;

    ghost KIND = { 1 };

    ghost meaning = { partial_names };

    ghost no_empty_component = { λ s c h. rules_no_empty s
        ((partial_allows s).0 (ruling_allows (partial_name s) h)).every c };

    ghost value_fits = { partial_value };

    fn check(&self, name: &[u8]) -> Result<(), Refusal> {
        reference::name_partial(name)?;
        Ok(())
    }
}

impl ManualRulebook for PartialNames {
    ghost rules = { PartialRules };

    ghost ruled = { λ s. rules_decided (partial_name s) (partial_allows s) };
}

impl MendingRulebook for PartialNames {
    ghost mended = { mended_handle };

    ghost always_allowed = { λ s. ap ruling (mended_allowed s) };

    ghost no_longer = { λ s. mended_short s };

    ghost allowed_stays = { λ s h. allowed_unchanged s (ruling_allows (partial_name s) h) };

    fn mend(&self, text: &[u8], out: &mut [u8]) -> Result<usize, mending::Error> {
        reference::name_partial_or_sanitize(text, out)
    }
}

/// Asks the rulebook of partial reference names.
pub fn partial_name(name: &[u8]) -> Result<(), RulebookFault>
    ensures answer { fault_ruling result ≡ partial_names name.now }
    ensures manual { IsOk result ↔ PartialRules name.now }
    ensures kind { IfErr result (λ f. f.kind ≡ 1) }
    ensures meaning { (s : List ℕ) → ⟦<PartialNames as Rulebook>⟧.meaning s ≡ partial_names s }
    ensures rules { (s : List ℕ) → ⟦<PartialNames as ManualRulebook>⟧.rules s ↔ PartialRules s }
    ensures number { ⟦<PartialNames as Rulebook>⟧.KIND ≡ 1 }
    ensures mends { (s : List ℕ) → ⟦<PartialNames as MendingRulebook>⟧.mended s ≡ mended_handle s }
{
    ask_by_manual(&PartialNames, name)
}

/// Kind 2: complete reference names.
#[derive(Clone, Copy, Debug)]
pub struct CompleteNames;

impl Rulebook for CompleteNames {
    const KIND: u8 = 2;

    ghost KIND = { 2 };

    ghost meaning = { complete_names };

    ghost no_empty_component = { λ s c h. rules_no_empty s
        ((complete_allows s).0 (ruling_allows (complete_name s) h)).partial.every c };

    ghost value_fits = { complete_value };

    fn check(&self, name: &[u8]) -> Result<(), Refusal> {
        reference::name(name)?;
        Ok(())
    }
}

impl ManualRulebook for CompleteNames {
    ghost rules = { CompleteRules };

    ghost ruled = { λ s. rules_decided (complete_name s) (complete_allows s) };
}

/// Asks the rulebook of complete reference names.
pub fn complete_name(name: &[u8]) -> Result<(), RulebookFault>
    ensures answer { fault_ruling result ≡ complete_names name.now }
    ensures manual { IsOk result ↔ CompleteRules name.now }
    ensures kind { IfErr result (λ f. f.kind ≡ 2) }
    ensures meaning { (s : List ℕ) → ⟦<CompleteNames as Rulebook>⟧.meaning s ≡ complete_names s }
    ensures rules { (s : List ℕ) → ⟦<CompleteNames as ManualRulebook>⟧.rules s ↔ CompleteRules s }
    ensures number { ⟦<CompleteNames as Rulebook>⟧.KIND ≡ 2 }
{
    ask_by_manual(&CompleteNames, name)
}

/// Kind 3: branch names.
#[derive(Clone, Copy, Debug)]
pub struct BranchNames;

impl Rulebook for BranchNames {
    const KIND: u8 = 3;

    ghost KIND = { 3 };

    ghost meaning = { branch_names };

    ghost no_empty_component = { λ s c h. rules_no_empty s
        ((branch_allows s).0 (ruling_allows (branch_name s) h)).complete.partial.every c };

    ghost value_fits = { branch_value };

    fn check(&self, name: &[u8]) -> Result<(), Refusal> {
        reference::branch_name(name)?;
        Ok(())
    }
}

impl ManualRulebook for BranchNames {
    ghost rules = { BranchRules };

    ghost ruled = { λ s. rules_decided (branch_name s) (branch_allows s) };
}

/// Asks the rulebook of branch names.
pub fn branch_name(name: &[u8]) -> Result<(), RulebookFault>
    ensures answer { fault_ruling result ≡ branch_names name.now }
    ensures manual { IsOk result ↔ BranchRules name.now }
    ensures kind { IfErr result (λ f. f.kind ≡ 3) }
    ensures meaning { (s : List ℕ) → ⟦<BranchNames as Rulebook>⟧.meaning s ≡ branch_names s }
    ensures rules { (s : List ℕ) → ⟦<BranchNames as ManualRulebook>⟧.rules s ↔ BranchRules s }
    ensures number { ⟦<BranchNames as Rulebook>⟧.KIND ≡ 3 }
{
    ask_by_manual(&BranchNames, name)
}

/// Kind 4: tag names.
#[derive(Clone, Copy, Debug)]
pub struct TagNames;

impl Rulebook for TagNames {
    const KIND: u8 = 4;

    ghost KIND = { 4 };

    ghost meaning = { tag_names };

    ghost no_empty_component = { λ s c h. rules_no_empty s
        (rules_from_allowed s (ruling_allows (tag_name s) h)) c };

    ghost value_fits = { tag_value };

    fn check(&self, name: &[u8]) -> Result<(), Refusal> {
        tag::name(name)?;
        Ok(())
    }
}

impl ManualRulebook for TagNames {
    ghost rules = { Rules };

    ghost ruled = { λ s. rules_decided (tag_name s) (rules_from_allowed s, allowed_from_rules s) };
}

/// Asks the rulebook of tag names.
pub fn tag_name(name: &[u8]) -> Result<(), RulebookFault>
    ensures answer { fault_ruling result ≡ tag_names name.now }
    ensures manual { IsOk result ↔ Rules name.now }
    ensures kind { IfErr result (λ f. f.kind ≡ 4) }
    ensures meaning { (s : List ℕ) → ⟦<TagNames as Rulebook>⟧.meaning s ≡ tag_names s }
    ensures rules { (s : List ℕ) → ⟦<TagNames as ManualRulebook>⟧.rules s ↔ Rules s }
    ensures number { ⟦<TagNames as Rulebook>⟧.KIND ≡ 4 }
{
    ask_by_manual(&TagNames, name)
}
