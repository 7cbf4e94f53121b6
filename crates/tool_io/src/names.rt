//! The names that a question is asked of.
ghost use Rattle.std.specs.Prelude.{◌≡◌, IfOk, map};
ghost use Rattle.tool_io.specs.Names.{names_of};

use lines::Lines;
use std::alloc::{AllocError, Global};

/// The names that were given, or where there are none, the lines of the input.
pub(crate) fn named<'a>(
    heap: Global,
    given: &[&'a str],
    input: &'a [u8],
) -> Result<Vec<&'a [u8]>, AllocError>
    ensures { IfOk result (λ v. map (λ n. n.now) v.items
        ≡ names_of (map (λ n. n.now) given.now) input.entry.now) }
{
    if given.is_empty() {
        return Lines::of(input).collect(heap);
    }
    given.iter().map(|name| name.as_bytes()).collect(heap)
}
