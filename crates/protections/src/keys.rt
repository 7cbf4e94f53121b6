//! Keys: lists of numbers by which components are compared, and the one comparison.
ghost use Rattle.std.specs.Prelude.{◌≡◌, ℕ, ◌<◌, ◌≤◌, ◌↔◌, List, IsTrue, bytes_eq};
ghost use Rattle.std.specs.Iterator.{YieldsFirst, item_count};
ghost use Rattle.std.specs.List.{AllByRecursion, cons_option, list_all};
ghost use Rattle.characters.specs.Standard.{largest_code_point};
ghost use Rattle.protections.specs.Keys.{trimmed};
ghost use Rattle.std.specs.Char.{to_ascii_lowercase, char_set_contains};

use crate::plain_names::Plain;
use std::marker::Model;

/// What has a key for each component, which it yields number by number.
pub trait Keyed {
    ghost key: { Self → List ℕ → List ℕ };

    // The numbers that a component yields: its key, and then those at its end that do not count.
    ghost yielded: { Self → List ℕ → List ℕ };

    // The numbers that do not count at the end, where none but such follow.
    ghost ignored_at_end: { Self → List ℕ };

    /// Takes the next number off what is left of a component.
    fn advance(&self, rest: &mut &[u8]) -> Option<u32>
        ensures { YieldsFirst (yielded self.now) rest.old.now result rest.new.now };

    // Most impls answer no. A default body would need a law that `ignored_at_end` is empty there.
    /// Whether the number does not count at the end.
    fn is_ignored_at_end(&self, number: u32) -> bool
        ensures { result ≡ char_set_contains (ignored_at_end self.now) number };

    // First law: the key is what is yielded, without the numbers at its end that do not count.
    ghost key_of_yielded: { (p : Self) (s : List ℕ)
        → key p s ≡ trimmed (ignored_at_end p) (yielded p s) };

    // Second law: of a component of bytes, the numbers of the key are at most the largest code point.
    ghost bounded: { (p : Self) (s : List ℕ) → AllByRecursion (λ b. b < 256) s
        → AllByRecursion (λ n. n ≤ largest_code_point) (key p s) };
}

/// An iterator over the numbers of a component's key, and then over those at its end that do not count.
///
/// Only the end of the component tells these apart. To look for it ahead would read a component twice.
#[derive(Drop)]
pub struct Cursor<'p, 'a, P: Keyed> {
    protection: &'p P,
    rest: &'a [u8],
}

impl<'p, 'a, P: Keyed> Model for Cursor<'p, 'a, P> {
    ghost Value = { List ℕ };

    ghost view = { λ c. P.Keyed.yielded c.protection.now c.rest.now };
}

impl<'p, 'a, P: Keyed> Cursor<'p, 'a, P> {
    /// A cursor before the first number of the component.
    pub fn new(protection: &'p P, component: &'a [u8]) -> Cursor<'p, 'a, P>
        ensures numbers { result ≡ P.Keyed.yielded protection.now component.now }
        ensures key { P.Keyed.key protection.now component.now
            ≡ trimmed (P.Keyed.ignored_at_end protection.now) result }
        ensures bound { AllByRecursion (λ n. n ≤ largest_code_point)
            (P.Keyed.key protection.now component.now) }
    {
        Cursor {
            protection,
            rest: component,
        }
    }
}

impl<'p, 'a, P: Keyed> Iterator for Cursor<'p, 'a, P> {
    type Item = u32;

    ghost next_gives = { YieldsFirst (λ c. c) };

    ghost remaining = { item_count (λ c. c) };

    /// The next number.
    fn next(&mut self) -> Option<u32> {
        self.protection.advance(&mut self.rest)
    }
}

// Whether neither the number, if there is one, nor any that follows it counts.
fn all_ignored_at_end<P: Keyed>(
    protection: &P,
    number: Option<u32>,
    mut rest: Cursor<'_, '_, P>,
) -> bool
    ensures { result
        ≡ list_all (char_set_contains (P.Keyed.ignored_at_end protection.now))
        (cons_option number rest.entry) }
{
    number.is_none_or(|number| protection.is_ignored_at_end(number))
        && rest.all(|number| protection.is_ignored_at_end(number))
}

/// Whether two components have the same key: past the numbers that they share, neither has one that counts.
pub fn same_key<P: Keyed>(protection: &P, left: &[u8], right: &[u8]) -> bool
    ensures { IsTrue result
        ↔ (P.Keyed.key protection.now left.now ≡ P.Keyed.key protection.now right.now) }
{
    let mut left = Cursor::new(protection, left);
    let mut right = Cursor::new(protection, right);
    loop {
        let number = left.next();
        let other = right.next();
        if number.is_none() || number != other {
            return all_ignored_at_end(protection, number, left)
                && all_ignored_at_end(protection, other, right);
        }
    }
}

// Whether the component yields the numbers of the name.
pub(crate) fn named<P: Keyed>(protection: &P, component: &[u8], name: &[u8]) -> bool
    ensures { result ≡ bytes_eq (P.Keyed.yielded protection.now component.now) name.now }
{
    Cursor::new(protection, component).eq(Cursor::new(&Plain, name))
}

// A to Z made small. The library has this for a byte and for a `char`, and a key's number is neither.
pub(crate) fn small(number: u32) -> u32
    ensures { result ≡ to_ascii_lowercase number }
{
    match number {
        65..=90 => number + 32,
        _ => number,
    }
}
