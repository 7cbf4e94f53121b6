//! The components of a name: its parts between slashes, from the left.
ghost use Rattle.std.specs.Prelude.{◌≡◌, ℕ, List};
ghost use Rattle.std.specs.Iterator.{YieldsFirstRef, item_count};
ghost use Rattle.tag.specs.Components.{AreComponents, components};
ghost use Rattle.tag.specs.ComponentsLeft.{components_left};

use crate::splits::split_once;

/// The components of a name that are still to come. A name with no byte has one component, which is empty.
#[derive(Clone, Copy, Debug)]
pub struct Components<'a> {
    rest: Option<&'a [u8]>,
}

impl<'a> Components<'a> {
    /// The components of `name`.
    pub fn of(name: &'a [u8]) -> Components<'a>
        ensures answer { components_left result ≡ components name.now }
        ensures components { AreComponents name.now (components_left result) }
        ensures no_others { (cs : List (List ℕ))
            → AreComponents name.now cs → cs ≡ components_left result }
    {
        Components { rest: Some(name) }
    }
}

// The library's `split` would give the same, but its type has that of its closure, which a struct cannot name.
impl<'a> Iterator for Components<'a> {
    type Item = &'a [u8];

    ghost next_gives = { YieldsFirstRef components_left };

    ghost remaining = { item_count components_left };

    fn next(&mut self) -> Option<&'a [u8]> {
        let rest = self.rest?;
        match split_once(rest, b'/') {
            Some((component, others)) => {
                self.rest = Some(others);
                Some(component)
            }
            None => {
                self.rest = None;
                Some(rest)
            }
        }
    }
}
