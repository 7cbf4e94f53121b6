//! The rulebook of tree paths, kind 5.
ghost use Rattle.std.specs.Prelude.{◌≡◌, ℕ, List, IfErr};
ghost use Rattle.tag.specs.Components.{components};
ghost use Rattle.rulebooks.specs.Kinds.{component_ruling, tree_paths};
ghost use Rattle.rulebooks.specs.Paths.{PathRuled};
ghost use Rattle.rulebooks.specs.Refusals.{fault_ruling, ruling_of};
ghost use Rattle.rulebooks.specs.LawLemmas.{leftmost_no_empty, leftmost_value};

use super::{Refusal, Rulebook, RulebookFault, ask};
use tag::components::Components;

/// Whether a tree path may have this component at this index: 21 for an empty one, 28 for a relative one.
fn check_component(index: usize, component: &[u8]) -> Result<(), Refusal>
    ensures { ruling_of result ≡ component_ruling index component.now }
{
    match component {
        [] => Err(Refusal {
            number: 21,
            value: index,
        }),
        b"." | b".." => Err(Refusal {
            number: 28,
            value: index,
        }),
        _ => Ok(()),
    }
}

/// Checks the components of `path` from the left.
fn check_components(path: &[u8]) -> Result<(), Refusal>
    ensures { ruling_of result ≡ tree_paths path.now }
{
    for (index, component) in Components::of(path).enumerate() {
        check_component(index, component)?;
    }
    Ok(())
}

/// Kind 5: tree paths.
#[derive(Clone, Copy, Debug)]
pub struct TreePaths;

impl Rulebook for TreePaths {
    const KIND: u8 = 5;

    ghost KIND = { 5 };

    ghost meaning = { tree_paths };

    ghost no_empty_component = { λ s c h. leftmost_no_empty 0 (components s) h c };

    ghost value_fits = { λ s. leftmost_value 0 (components s) };

    fn check(&self, name: &[u8]) -> Result<(), Refusal> {
        check_components(name)
    }
}

/// Asks the rulebook of tree paths; a refusal tells the leftmost component that is not proper.
#[tactic(auto, using(crate::proofs::Leftmost::path_ruled))]
pub fn tree_path(path: &[u8]) -> Result<(), RulebookFault>
    ensures answer { fault_ruling result ≡ tree_paths path.now }
    ensures kind { IfErr result (λ f. f.kind ≡ 5) }
    ensures meaning { (s : List ℕ) → ⟦<TreePaths as Rulebook>⟧.meaning s ≡ tree_paths s }
    ensures number { ⟦<TreePaths as Rulebook>⟧.KIND ≡ 5 }
    ensures leftmost { PathRuled (components path.now) (fault_ruling result) }
{
    // It stays beside `ask`, since the clause `leftmost` is of tree paths alone.
    ask(&TreePaths, path)
}
