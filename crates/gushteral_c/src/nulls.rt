//! What stands for no bytes. C may pass no address for a slice of length 0.
ghost use Rattle.std.specs.Prelude.{◌≡◌};

/// The same bytes. Where there are none, the empty string is the library's own, so that nothing
/// reads the address that was passed.
pub(crate) fn own_if_empty(bytes: &[u8]) -> &[u8]
    ensures { result.now ≡ bytes.now }
{
    if bytes.is_empty() { &[] } else { bytes }
}
