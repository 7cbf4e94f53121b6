//! The first byte of a string taken off.
ghost use Rattle.std.specs.Char.{to_ascii_lowercase};
ghost use Rattle.std.specs.Iterator.{YieldsFirst};
ghost use Rattle.protections.specs.Keys.{lowered};

use crate::keys::small;

// Takes the first byte off.
pub(crate) fn take_byte(rest: &mut &[u8]) -> Option<u32>
    ensures { YieldsFirst (λ s. s) rest.old.now result rest.new.now }
{
    rest.split_off_first().map(|byte| u32::from(*byte))
}

// Takes the first byte off, made small.
pub(crate) fn take_small(rest: &mut &[u8]) -> Option<u32>
    ensures { YieldsFirst lowered rest.old.now result rest.new.now }
{
    take_byte(rest).map(small)
}
