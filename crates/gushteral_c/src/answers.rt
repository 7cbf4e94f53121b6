//! What the exported calls answer. C reads each answer, so its fields are numbers.
ghost use Rattle.std.specs.Prelude.{◌≡◌};
ghost use Rattle.tag.specs.Answers.{number_of};
ghost use Rattle.reference.specs.Errors.{answer_of};
ghost use Rattle.gushteral_c.specs.Numbers.{text_length, text_number, value_of};

/// The answer of a check of names: the number of the refusal and its value, the invalid byte for 1
/// and else 0. Both are 0 for an allowed name. The name that 13 carries is the whole input.
#[repr(C)]
#[derive(Clone, Copy, Debug, PartialEq, Eq)]
pub struct NameAnswer {
    pub number: u32,
    pub value: u32,
}

/// The answer of a call that writes a text: 0 and the length of the text at the front of the
/// buffer, or the number of the refusal and 0.
#[repr(C)]
#[derive(Clone, Copy, Debug, PartialEq, Eq)]
pub struct TextAnswer {
    pub number: u32,
    pub length: usize,
}

/// The numbers of what a check of names answers.
// A refusal of a rulebook splits an error likewise, but has its value as a `usize`, which may also
// be an index.
impl From<Result<&[u8], reference::Error<'_>>> for NameAnswer {
    ghost from_gives = { λ res r. (r.number ≡ number_of (answer_of res))
        × (r.value ≡ value_of (answer_of res)) };

    fn from(res: Result<&[u8], reference::Error<'_>>) -> NameAnswer {
        match res {
            Ok(_) => NameAnswer {
                number: 0,
                value: 0,
            },
            Err(error) => NameAnswer {
                number: u32::from(error.number()),
                // Of all the values C reads the invalid byte alone.
                value: match error {
                    reference::Error::InvalidByte(byte) => u32::from(byte),
                    _ => 0,
                },
            },
        }
    }
}

/// The numbers of what a call that writes a text answers.
impl From<Result<usize, mending::Error>> for TextAnswer {
    ghost from_gives = { λ res r. (r.number ≡ text_number res) × (r.length ≡ text_length res) };

    fn from(res: Result<usize, mending::Error>) -> TextAnswer {
        match res {
            Ok(length) => TextAnswer { number: 0, length },
            Err(error) => TextAnswer {
                number: u32::from(error.number()),
                length: 0,
            },
        }
    }
}
