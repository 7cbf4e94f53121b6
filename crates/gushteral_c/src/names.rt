//! The seven ported calls.
ghost use Rattle.std.specs.Prelude.{◌≡◌, length, if◌then◌else◌, unwrap_or};
ghost use Rattle.tag.specs.Answers.{number_of};
ghost use Rattle.tag.specs.Names.{tag_name};
ghost use Rattle.mending.specs.Mender.{buffer_after, length_or_error, mended};
ghost use Rattle.reference.specs.Errors.{answer_of};
ghost use Rattle.reference.specs.Names.{branch_name, complete_name, partial_name};
ghost use Rattle.path.specs.Rule.{component_rule};
ghost use Rattle.protections.specs.Rules.{is_device};
ghost use Rattle.gushteral_c.specs.Numbers.{mode_by, on, options_by, text_length, text_number, value_of};

use crate::answers::{NameAnswer, TextAnswer};
use crate::nulls::own_if_empty;
use path::{Mode, Options};

/// Whether the input is a partial reference name.
// The exported names stay, so each check of names has a function. Both fields are compared with
// what the check means, as C reads both.
#[unsafe(no_mangle)]
pub extern "C" fn gushteral_reference_name_partial(input: &[u8]) -> NameAnswer
    ensures number { result.number ≡ number_of (partial_name input.now) }
    ensures value { result.value ≡ value_of (partial_name input.now) }
{
    NameAnswer::from(reference::name_partial(own_if_empty(input)))
}

/// Whether the input is a complete reference name.
#[unsafe(no_mangle)]
pub extern "C" fn gushteral_reference_name(input: &[u8]) -> NameAnswer
    ensures number { result.number ≡ number_of (complete_name input.now) }
    ensures value { result.value ≡ value_of (complete_name input.now) }
{
    NameAnswer::from(reference::name(own_if_empty(input)))
}

/// Whether the input is a complete reference name that a branch may have.
#[unsafe(no_mangle)]
pub extern "C" fn gushteral_reference_branch_name(input: &[u8]) -> NameAnswer
    ensures number { result.number ≡ number_of (branch_name input.now) }
    ensures value { result.value ≡ value_of (branch_name input.now) }
{
    NameAnswer::from(reference::branch_name(own_if_empty(input)))
}

/// The check of tag names, with its error as that of a reference name.
// A `From` for each error that goes `Into` this one was tried: its clause has to name the error
// that comes of the conversion, and is longer than this function.
fn tag_name(input: &[u8]) -> Result<&[u8], reference::Error<'_>>
    ensures { answer_of result ≡ tag_name input.now }
{
    Ok(tag::name(input)?)
}

/// Whether the input is a tag name.
#[unsafe(no_mangle)]
pub extern "C" fn gushteral_tag_name(input: &[u8]) -> NameAnswer
    ensures number { result.number ≡ number_of (tag_name input.now) }
    ensures value { result.value ≡ value_of (tag_name input.now) }
{
    NameAnswer::from(tag_name(own_if_empty(input)))
}

/// The mender, with its answer as numbers.
fn mend(input: &[u8], out: &mut [u8]) -> TextAnswer
    ensures number { result.number
        ≡ text_number (length_or_error (mended input.now) input.now (length out.old)) }
    ensures length { result.length
        ≡ text_length (length_or_error (mended input.now) input.now (length out.old)) }
    ensures buffer { out.new ≡ buffer_after (mended input.now) input.now out.old }
{
    TextAnswer::from(reference::name_partial_or_sanitize(input, out))
}

/// Writes the partial name to which the input is mended to the front of `out`. Where `out` has
/// fewer bytes than the larger of 1 and the input's length, it is refused by 31 and `out` stays.
// Of a function that answers one of two buffers no clause says what becomes of the other. So each
// call with a buffer is made once for an empty one and once for `out`.
#[unsafe(no_mangle)]
pub extern "C" fn gushteral_reference_name_partial_or_sanitize(
    input: &[u8],
    out: &mut [u8],
) -> TextAnswer
    ensures number { result.number
        ≡ text_number (length_or_error (mended input.now) input.now (length out.old)) }
    ensures length { result.length
        ≡ text_length (length_or_error (mended input.now) input.now (length out.old)) }
    ensures buffer { out.new ≡ buffer_after (mended input.now) input.now out.old }
{
    let input = own_if_empty(input);
    if out.is_empty() {
        mend(input, &mut [])
    } else {
        mend(input, out)
    }
}

/// The mode by a number: 0 is absent, and any other is a symbolic link.
// C passes the mode, so it is a number.
fn mode(link: u8) -> Option<Mode>
    ensures { result ≡ mode_by link }
{
    (link != 0).then_some(Mode::Symlink)
}

/// Whether a component is allowed under the protections that are on: a flag is off at 0 and on at
/// any other number.
// C passes the settings and reads the answer, so each is a number.
#[unsafe(no_mangle)]
pub extern "C" fn gushteral_path_component(
    input: &[u8],
    link: u8,
    windows: u8,
    hfs: u8,
    ntfs: u8,
) -> u32
    ensures { result
        ≡ unwrap_or (component_rule input.now (mode_by link) (options_by windows hfs ntfs)) 0 }
{
    let options = Options {
        protect_windows: windows != 0,
        protect_hfs: hfs != 0,
        protect_ntfs: ntfs != 0,
    };
    path::component(own_if_empty(input), mode(link), options)
        .err()
        .map_or(0, |error| u32::from(error.number()))
}

/// 1 where the component's device key is one of the listed names, and else 0.
#[unsafe(no_mangle)]
pub extern "C" fn gushteral_path_component_is_windows_device(input: &[u8]) -> u8
    ensures { result ≡ (if is_device input.now then 1 else 0) }
{
    u8::from(path::component_is_windows_device(own_if_empty(input)))
}
