//! The characters of a byte string, one after another.
ghost use Rattle.std.specs.Prelude.{◌≡◌};
ghost use Rattle.std.specs.Iterator.{YieldsFirst, item_count};
ghost use Rattle.characters.specs.ToCome.{parts_to_come};
ghost use Rattle.characters.specs.Reader.{parts};

use super::{Part, take_part};

/// The parts of a byte string that are still to come.
// The iterators over components, lines and characters differ in their step and in what their contract says is left.
#[derive(Clone, Copy, Debug)]
pub struct Characters<'a> {
    rest: &'a [u8],
}

impl<'a> Characters<'a> {
    /// The parts of `bytes`.
    pub fn of(bytes: &'a [u8]) -> Characters<'a>
        ensures { parts_to_come result ≡ parts bytes.now }
    {
        Characters { rest: bytes }
    }
}

impl<'a> Iterator for Characters<'a> {
    type Item = Part;

    ghost next_gives = { YieldsFirst parts_to_come };

    ghost remaining = { item_count parts_to_come };

    fn next(&mut self) -> Option<Part> {
        take_part(&mut self.rest)
    }
}
