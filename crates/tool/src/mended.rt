//! Texts turned into handles.
ghost use Rattle.std.specs.Prelude.{◌≡◌, ◌++◌, IfOk, IsTrue, codes};
ghost use Rattle.mending.specs.Mender.{mended};

use crate::Line;
use std::alloc::{AllocError, Global};

/// The handle that the text is mended to.
pub fn mend(heap: Global, text: &[u8]) -> Result<Line, AllocError>
    ensures line { IfOk result (λ l. l.bytes.items ≡ mended text.now ++ codes "\n") }
    ensures passed { IfOk result (λ l. IsTrue l.passed) }
{
    let mut bytes = handling::handle(heap, text)?;
    bytes.push(b'\n')?;
    Ok(Line {
        bytes,
        passed: true,
    })
}
