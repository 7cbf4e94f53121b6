//! What is asked of each name or text of a list.
ghost use Rattle.std.specs.Prelude.{◌≡◌, IfOk, map};
ghost use Rattle.std.specs.List.{flat_map, list_all};
ghost use Rattle.tool.specs.Questions.{line_for, passes};

use crate::{Kind, Line, check, component, mend};
use path::{Mode, Options};
use std::alloc::{AllocError, Global};

/// What is asked of each name or text.
#[derive(Clone, Copy, Debug, PartialEq, Eq)]
pub enum Question {
    /// Whether it is a name of this kind.
    Check(Kind),
    /// Whether it passes the protections that are on, as a component with this mode.
    Component {
        mode: Option<Mode>,
        options: Options,
    },
    /// Its handle.
    Mend,
}

impl Question {
    /// The line of one name or text.
    pub fn line(&self, heap: Global, text: &[u8]) -> Result<Line, AllocError>
        ensures line { IfOk result (λ l. l.bytes.items ≡ line_for self.now text.now) }
        ensures passed { IfOk result (λ l. l.passed ≡ passes self.now text.now) }
    {
        match *self {
            Question::Check(kind) => check(heap, kind, text),
            Question::Component { mode, options } => component(heap, mode, options, text),
            Question::Mend => mend(heap, text),
        }
    }

    /// The lines of all of them, one after another, and whether nothing was refused.
    pub fn lines(&self, heap: Global, texts: &[&[u8]]) -> Result<Line, AllocError>
        ensures lines { IfOk result (λ l. l.bytes.items
            ≡ flat_map (line_for self.now) (map (λ t. t.now) texts.now)) }
        ensures passed { IfOk result (λ l. l.passed
            ≡ list_all (passes self.now) (map (λ t. t.now) texts.now)) }
    {
        let mut bytes = Vec::new(heap);
        let mut passed = true;
        for text in texts {
            let line = self.line(heap, text)?;
            bytes.extend_from_slice(line.bytes.as_slice())?;
            passed &= line.passed;
        }
        Ok(Line { bytes, passed })
    }
}
