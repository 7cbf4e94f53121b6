//! What is answered to a question, as a value.
ghost use Rattle.std.specs.Prelude.{◌≡◌, IfOk, map};
ghost use Rattle.std.specs.List.{flat_map, list_all, list_any};
ghost use Rattle.tool.specs.Questions.{line_for, passes};
ghost use Rattle.tool_io.specs.Answers.{ends_in_return};
ghost use Rattle.tool_io.specs.Names.{names_of};

use crate::names::named;
use std::alloc::{AllocError, Global};
use tool::{Line, Question};

/// What is answered.
#[derive(Drop)]
pub(crate) struct Answer {
    /// What goes to standard output.
    pub(crate) bytes: Vec<u8>,
    /// Whether all passed.
    pub(crate) passed: bool,
    /// Whether a name ends in the byte 0x0D.
    pub(crate) is_hinted: bool,
}

impl Answer {
    /// The answer of one line on these names.
    pub(crate) fn of(line: Line, names: &[&[u8]]) -> Answer
        ensures bytes { result.bytes.items ≡ line.bytes.items }
        ensures passed { result.passed ≡ line.passed }
        ensures hint { result.is_hinted ≡ list_any (λ n. ends_in_return n.now) names.now }
    {
        Answer {
            bytes: line.bytes,
            passed: line.passed,
            is_hinted: names.iter().any(|name| ends_in_return(name)),
        }
    }
}

/// Whether a name ends in the byte 0x0D.
fn ends_in_return(name: &[u8]) -> bool
    ensures { result ≡ ends_in_return name.now }
{
    name.ends_with(b"\r")
}

/// The answer to a question on the names that were given, or where there are none, on the lines of
/// the input.
#[tactic(auto, using(crate::proofs::Given::hinted))]
pub(crate) fn on_names(
    heap: Global,
    question: &Question,
    given: &[&str],
    input: &[u8],
) -> Result<Answer, AllocError>
    ensures bytes { IfOk result (λ a. a.bytes.items ≡ flat_map (line_for question.now)
        (names_of (map (λ n. n.now) given.now) input.now)) }
    ensures passed { IfOk result (λ a. a.passed ≡ list_all (passes question.now)
        (names_of (map (λ n. n.now) given.now) input.now)) }
    ensures hint { IfOk result (λ a. a.is_hinted ≡ list_any ends_in_return
        (names_of (map (λ n. n.now) given.now) input.now)) }
{
    let names = named(heap, given, input)?;
    let line = question.lines(heap, names.as_slice())?;
    Ok(Answer::of(line, names.as_slice()))
}
