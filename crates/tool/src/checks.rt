//! Names and components checked.
ghost use Rattle.std.specs.Prelude.{◌≡◌, IfOk, IsTrue, is_none};
ghost use Rattle.path.specs.Rule.{component_rule};
ghost use Rattle.rulebooks.specs.Refusals.{fault_ruling};
ghost use Rattle.tool.specs.Lines.{allowed_line, allows, check_line, component_line, ruling_by};

use crate::Line;
use path::{Mode, Options};
use rulebooks::RulebookFault;
use rulebooks::names::{branch_name, complete_name, partial_name, tag_name};
use rulebooks::trees::tree_path;
use std::alloc::{AllocError, Global};

/// Which names are asked for.
#[derive(Clone, Copy, Debug, PartialEq, Eq)]
pub enum Kind {
    Tag,
    Partial,
    Complete,
    Branch,
    /// Tree paths.
    Path,
}

// Asks the rulebook of this kind.
fn ask(kind: Kind, name: &[u8]) -> Result<(), RulebookFault>
    ensures { fault_ruling result ≡ ruling_by kind name.now }
{
    match kind {
        Kind::Tag => tag_name(name),
        Kind::Partial => partial_name(name),
        Kind::Complete => complete_name(name),
        Kind::Branch => branch_name(name),
        Kind::Path => tree_path(name),
    }
}

// The line of a name that passed.
fn allowed(heap: Global) -> Result<Line, AllocError>
    ensures { IfOk result (λ l. (l.bytes.items ≡ allowed_line) × IsTrue l.passed) }
{
    Ok(Line {
        bytes: format!(in heap; "allowed\n")?.into_bytes(),
        passed: true,
    })
}

/// Whether the name is one of this kind: `allowed`, or `refused`, the number, and the sentence of the refusal.
pub fn check(heap: Global, kind: Kind, name: &[u8]) -> Result<Line, AllocError>
    ensures line { IfOk result (λ l. l.bytes.items ≡ check_line kind name.now) }
    ensures passed { IfOk result (λ l. l.passed ≡ allows (ruling_by kind name.now)) }
{
    match ask(kind, name) {
        Ok(()) => allowed(heap),
        Err(fault) => Ok(Line {
            bytes: format!(in heap; "refused {} {fault}\n", fault.refusal.number)?.into_bytes(),
            passed: false,
        }),
    }
}

/// Whether the component passes the protections that are on: `allowed`, or `refused`, the number, and the words of the refusal.
#[tactic(auto, using(crate::proofs::Texts::text_by_number))]
pub fn component(
    heap: Global,
    mode: Option<Mode>,
    options: Options,
    name: &[u8],
) -> Result<Line, AllocError>
    ensures line { IfOk result (λ l. l.bytes.items
        ≡ component_line (component_rule name.now mode options)) }
    ensures passed { IfOk result (λ l. l.passed ≡ is_none (component_rule name.now mode options)) }
{
    match path::component(name, mode, options) {
        Ok(_) => allowed(heap),
        Err(error) => Ok(Line {
            bytes: format!(in heap; "refused {} {error}\n", error.number())?.into_bytes(),
            passed: false,
        }),
    }
}
