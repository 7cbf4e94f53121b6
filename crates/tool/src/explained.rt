//! Refusals explained.
ghost use Rattle.std.specs.Prelude.{◌≡◌, IfOk, IsTrue};
ghost use Rattle.tool.specs.Lines.{explanation};

use crate::Line;
use explanations::AnyRefusal;
use std::alloc::{AllocError, Global};

/// What the refusal says, what it carries and what to do about it, on three lines.
pub fn explain(heap: Global, refusal: AnyRefusal) -> Result<Line, AllocError>
    ensures lines { IfOk result (λ l. l.bytes.items ≡ explanation refusal) }
    ensures passed { IfOk result (λ l. IsTrue l.passed) }
{
    let text = format!(in heap;
        "{} {}\ncarries: {}\nwhat to do: {}\n",
        refusal.number(),
        refusal.text(),
        refusal.carries(),
        refusal.remedy(),
    )?;
    Ok(Line {
        bytes: text.into_bytes(),
        passed: true,
    })
}
