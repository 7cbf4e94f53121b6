//! A byte string split at the first of some byte.
ghost use Rattle.std.specs.Prelude.{◌≡◌, ◌==◌, option_map, position};
ghost use Rattle.tag.specs.Splits.{split_once, two_parts};

/// The place of the first such byte, if there is one.
fn first_place(text: &[u8], byte: u8) -> Option<usize>
    ensures { result ≡ position (λ b. b == byte) text.now }
{
    text.iter().position(|other| *other == byte)
}

/// What stands before the first such byte, and what stands after it; none if there is no such byte.
pub fn split_once(text: &[u8], byte: u8) -> Option<(&[u8], &[u8])>
    ensures { option_map two_parts result ≡ split_once byte text.now }
{
    let place = first_place(text, byte)?;
    Some((&text[..place], &text[place + 1..]))
}
