//! One recorded call against the port.
use crate::record::{Call, Recorded, bytes_of};
use reference::Error;
use std::alloc::{AllocError, Global};

/// Whether the text writes these bytes.
fn spells(heap: Global, text: &str, bytes: &[u8]) -> Result<bool, AllocError> {
    Ok(bytes_of(heap, text)?.is_some_and(|read| read.as_slice() == bytes))
}

impl Recorded<'_> {
    /// Whether the recorded answer is this number.
    fn has_number(&self, number: u8) -> bool {
        self.answer.parse::<u8>().is_ok_and(|read| read == number)
    }

    /// Whether the recorded value is these bytes; an absent value is none.
    fn has_value(&self, heap: Global, bytes: &[u8]) -> Result<bool, AllocError> {
        spells(heap, self.value.unwrap_or("-"), bytes)
    }

    /// Whether a check of names answers as recorded.
    fn is_name(&self, heap: Global, res: Result<&[u8], Error<'_>>) -> Result<bool, AllocError> {
        let Err(error) = res else {
            return Ok(self.has_number(0) && self.value.is_none());
        };
        let carried = match error {
            Error::InvalidByte(byte) => self.has_value(heap, &[byte])?,
            Error::Reserved(name) => self.has_value(heap, name)?,
            _ => self.value.is_none(),
        };
        Ok(self.has_number(error.number()) && carried)
    }

    /// Whether the port answers the recorded call on this input as recorded.
    fn is_answer(&self, heap: Global, input: &[u8]) -> Result<bool, AllocError> {
        match self.call {
            Call::TagName => self.is_name(heap, tag_name(input)),
            Call::PartialName => self.is_name(heap, reference::name_partial(input)),
            Call::CompleteName => self.is_name(heap, reference::name(input)),
            Call::BranchName => self.is_name(heap, reference::branch_name(input)),
            Call::Mend => spells(heap, self.answer, handling::handle(heap, input)?.as_slice()),
            Call::WindowsDevice => {
                let device = path::component_is_windows_device(input);
                Ok(self.has_number(u8::from(device)))
            }
            Call::Component(mode, options) => {
                let refusal = path::component(input, mode, options).err();
                Ok(self.has_number(refusal.map_or(0, |error| error.number())))
            }
        }
    }
}

/// The check of tag names, with its error as that of a reference name.
// The exported calls have it for themselves: a public call of it would stand beside `tag::name` with nothing more to say.
fn tag_name(input: &[u8]) -> Result<&[u8], Error<'_>> {
    Ok(tag::name(input)?)
}

/// Whether the port answers as the line says.
pub(crate) fn is_replayed(heap: Global, line: &str) -> Result<bool, AllocError> {
    let Some(recorded) = Recorded::parse(line) else {
        return Ok(false);
    };
    match bytes_of(heap, recorded.input)? {
        Some(input) => recorded.is_answer(heap, input.as_slice()),
        None => Ok(false),
    }
}
