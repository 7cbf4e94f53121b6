//! The lines of a text, one after another.
#![tactic(auto)]

ghost use Rattle.std.specs.Prelude.{◌≡◌, ◌==◌, ◌<◌, [], ◌∷◌, length, MatchOption};
ghost use Rattle.std.specs.Iterator.{YieldsFirstRef, item_count};
ghost use Rattle.std.specs.List.{after_first, before_first};
ghost use Rattle.std.specs.Str.{byte};
ghost use Rattle.lines.specs.Left.{lines_left};
ghost use Rattle.lines.specs.Lines.{AreLines, lines};

use tag::splits::split_once;

/// The first line of a text, and what comes after the byte that ends it; none if there are no bytes.
pub fn next_line(text: &[u8]) -> Option<(&[u8], &[u8])>
    ensures parts { MatchOption result (text.now ≡ []) (λ p.
        (p.0.now ≡ before_first (λ b. b == byte "\n") text.now)
        × (p.1.now ≡ after_first (λ b. b == byte "\n") text.now)) }
    ensures splits { MatchOption result (text.now ≡ [])
        (λ p. lines text.now ≡ p.0.now ∷ lines p.1.now) }
    ensures shorter { MatchOption result (text.now ≡ []) (λ p. length p.1.now < length text.now) }
{
    if text.is_empty() {
        return None;
    }
    Some(split_once(text, b'\n').unwrap_or((text, &[])))
}

/// The lines of a text that are still to come. The last line may end with the text; a text with no byte has no line.
// Of the shape of `tag::components::Components`: the two differ in their step and in what their contract says is left.
#[derive(Clone, Copy, Debug)]
pub struct Lines<'a> {
    rest: &'a [u8],
}

impl<'a> Lines<'a> {
    /// The lines of `text`.
    pub fn of(text: &'a [u8]) -> Lines<'a>
        ensures left { lines_left result ≡ lines text.now }
        ensures lines { AreLines text.now (lines text.now) }
    {
        Lines { rest: text }
    }
}

impl<'a> Iterator for Lines<'a> {
    type Item = &'a [u8];

    ghost next_gives = { YieldsFirstRef lines_left };

    ghost remaining = { item_count lines_left };

    fn next(&mut self) -> Option<&'a [u8]> {
        let (line, rest) = next_line(self.rest)?;
        self.rest = rest;
        Some(line)
    }
}
