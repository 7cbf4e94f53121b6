//! The words of a refusal, by its number.
ghost use Rattle.std.specs.Prelude.{◌≡◌, ◌<◌, ◌≤◌, ◌++◌, length, false, codes};
ghost use Rattle.std.specs.Fmt.{digit_glyph};
ghost use Rattle.explanations.specs.Numbers.{known, number_of};
ghost use Rattle.words.specs.Sentences.{two_digits};
ghost use Rattle.gushteral_c.specs.Numbers.{text_length, text_number};
ghost use Rattle.gushteral_c.specs.Words.{with_text, words_of, written};

use crate::answers::TextAnswer;
use explanations::AnyRefusal;
use mending::Error;
use words::NameRefusal;

/// A buffer of this length has room for the words of every refusal.
pub const WORDS_ROOM: usize = 128;

/// The refusal of a number, if one has it.
fn refusal_of(number: u32) -> Option<AnyRefusal>
    ensures { result ≡ known number }
{
    AnyRefusal::of(u8::try_from(number).ok()?)
}

/// A number below 16 as a digit of base 16.
fn digit(number: u8) -> u8
    requires { number < 16 }
    ensures { result ≡ digit_glyph false number }
{
    b"0123456789abcdef"[usize::from(number)]
}

/// Writes two texts, one after the other, to the front of a buffer, and answers their length.
fn write_text(front: &[u8], back: &[u8], out: &mut [u8]) -> Result<usize, Error>
    ensures answer { result ≡ written (front.now ++ back.now) (length out.old) }
    ensures buffer { out.new ≡ with_text (front.now ++ back.now) out.old }
{
    let length = front.len() + back.len();
    if out.len() < length {
        return Err(Error::BufferTooShort);
    }
    out[..front.len()].copy_from_slice(front);
    out[front.len()..length].copy_from_slice(back);
    Ok(length)
}

/// Writes the sentence of a refusal, with the byte that it carries for a caller in C.
fn write_sentence(refusal: AnyRefusal, value: u32, out: &mut [u8]) -> Result<usize, Error>
    ensures answer { result ≡ written (words_of (number_of refusal) value) (length out.old) }
    ensures buffer { out.new ≡ with_text (words_of (number_of refusal) value) out.old }
{
    let text = refusal.text().as_bytes();
    match (refusal, u8::try_from(value)) {
        (AnyRefusal::Name(NameRefusal::InvalidByte), Ok(byte)) => {
            // `Display` of a sentence writes the same bytes, but no clause says that it does not fail.
            let carried = [b':', b' ', b'0', b'x', digit(byte / 16), digit(byte % 16)];
            write_text(text, &carried, out)
        }
        _ => write_text(text, &[], out),
    }
}

/// Writes the words of a number.
fn write_words(number: u32, value: u32, out: &mut [u8]) -> Result<usize, Error>
    ensures answer { result ≡ written (words_of number value) (length out.old) }
    ensures buffer { out.new ≡ with_text (words_of number value) out.old }
{
    match refusal_of(number) {
        Some(refusal) => write_sentence(refusal, value, out),
        None => Ok(0),
    }
}

/// Writes the words of a refusal to the front of `out`, and answers their length. The value is the
/// byte for 1, where it is below 256, and counts for no other number. A number that is no refusal
/// has no words: the length is 0 and `out` stays. Where `out` is shorter than the words, the call is
/// refused by 31 and `out` stays; 128 bytes are enough for every refusal.
#[unsafe(no_mangle)]
pub extern "C" fn gushteral_refusal_text(number: u32, value: u32, out: &mut [u8]) -> TextAnswer
    ensures number { result.number
        ≡ text_number (written (words_of number value) (length out.old)) }
    ensures length { result.length
        ≡ text_length (written (words_of number value) (length out.old)) }
    ensures buffer { out.new ≡ with_text (words_of number value) out.old }
    ensures room { WORDS_ROOM ≤ length out.old → result.number ≡ 0 }
{
    TextAnswer::from(if out.is_empty() {
        write_words(number, value, &mut [])
    } else {
        write_words(number, value, out)
    })
}
