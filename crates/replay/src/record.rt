//! A line of the record: a call, its input, and the answer of the ported crate.
use hex::FromHexError;
use path::{Mode, Options};
use std::alloc::{AllocError, Global};
use std::str::Split;

/// The calls that are recorded; that of components with its settings.
#[derive(Clone, Copy)]
pub(crate) enum Call {
    TagName,
    PartialName,
    CompleteName,
    BranchName,
    Mend,
    WindowsDevice,
    Component(Option<Mode>, Options),
}

/// A line in its parts. Bytes are in hexadecimal digits. The value is the one that some refusals of names carry.
#[derive(Clone, Copy)]
pub(crate) struct Recorded<'a> {
    pub(crate) call: Call,
    pub(crate) input: &'a str,
    pub(crate) answer: &'a str,
    pub(crate) value: Option<&'a str>,
}

/// The settings `lwhn` of link, Windows, HFS+ and NTFS, each off where another byte stands.
fn settings(text: &str) -> Option<(Option<Mode>, Options)> {
    let [link, windows, hfs, ntfs] = text.as_bytes() else {
        return None;
    };
    let mode = (*link == b'l').then_some(Mode::Symlink);
    let options = Options {
        protect_windows: *windows == b'w',
        protect_hfs: *hfs == b'h',
        protect_ntfs: *ntfs == b'n',
    };
    Some((mode, options))
}

/// The call by its letter; the settings of components are in the field after it.
fn next_call(fields: &mut Split<'_, char>) -> Option<Call> {
    match fields.next()? {
        "t" => Some(Call::TagName),
        "p" => Some(Call::PartialName),
        "n" => Some(Call::CompleteName),
        "b" => Some(Call::BranchName),
        "m" => Some(Call::Mend),
        "d" => Some(Call::WindowsDevice),
        "c" => {
            let (mode, options) = settings(fields.next()?)?;
            Some(Call::Component(mode, options))
        }
        _ => None,
    }
}

impl<'a> Recorded<'a> {
    /// What a line says, none where it is no line of a record.
    pub(crate) fn parse(line: &'a str) -> Option<Recorded<'a>> {
        let mut fields = line.split(' ');
        Some(Recorded {
            call: next_call(&mut fields)?,
            input: fields.next()?,
            answer: fields.next()?,
            value: fields.next(),
        })
    }
}

/// The bytes that a text writes in digits 0 to 9 and a to f, a dash for no byte; none where it writes no bytes.
pub(crate) fn bytes_of(heap: Global, text: &str) -> Result<Option<Vec<u8>>, AllocError> {
    if text == "-" {
        return Ok(Some(Vec::new(heap)));
    }
    if text.bytes().any(|digit| digit.is_ascii_uppercase()) {
        return Ok(None);
    }
    match hex::decode(heap, text) {
        Ok(bytes) => Ok(Some(bytes)),
        Err(FromHexError::OutOfMemory) => Err(AllocError),
        Err(_) => Ok(None),
    }
}
