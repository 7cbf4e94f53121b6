//! The text that the mender makes, at the front of a caller's buffer.
ghost use Rattle.std.specs.Prelude.{◌≡◌, ◌+◌, ◌-◌, ◌<◌, ◌≤◌, [], ◌∷◌, ◌++◌, length, drop, take, replicate, ◌==◌, ◌||◌, slice_index};
ghost use Rattle.std.specs.Str.{byte};
ghost use Rattle.mending.specs.Mender.{without_lock, dash_alone, dash_end, replaced};
ghost use Rattle.tag.specs.Components.{components};
ghost use Rattle.mending.specs.Steps.{FirstEnds, add, add_all, gap, wants_dash};

use super::mended_byte;
use tag::ends_in_lock;
use tag::scanner::Scanner;

/// Whether the last byte of a text that is not empty becomes a dash: it is a dot, or the text is `@`.
fn wants_dash(text: &[u8]) -> bool
    ensures { result ≡ wants_dash text.now }
{
    matches!(text, [.., b'.'] | b"@")
}

/// Whether what comes before the first slash has no byte.
fn begins_empty(rest: &[u8]) -> bool
    ensures { result ≡ (length rest.now == 0 || slice_index rest.now 0 == byte "/") }
{
    matches!(rest, [] | [b'/', ..])
}

/// How many bytes of an input were read, and how many were written for them.
#[derive(Clone, Copy)]
struct Progress {
    read: usize,
    written: usize,
}

/// Writes the bytes before the first slash, each replaced, to the front of the buffer.
// It reads each byte once: to look for the slash first takes a third more instructions, counted on names. It writes through the
// slice, since `push` for each byte was measured to take nearly twice as long.
fn write_replaced(rest: &[u8], out: &mut [u8]) -> Progress
    requires { length rest.now ≤ length out.old }
    ensures reads { FirstEnds rest.now result.read }
    ensures writes { take result.written out.new ≡ replaced (byte "/") (take result.read rest.now) }
    ensures bound { result.written ≤ result.read }
{
    let mut scanner = Scanner::AfterSlash;
    let mut end = 0;
    for (i, byte) in rest.iter().enumerate() {
        if *byte == b'/' {
            return Progress {
                read: i,
                written: end,
            };
        }
        if let Some(mended) = mended_byte(&mut scanner, *byte) {
            out[end] = mended;
            end += 1;
        }
    }
    Progress {
        read: rest.len(),
        written: end,
    }
}

/// The text made so far: the first `end` bytes of the buffer.
// The buffer is the caller's, and there is no heap, so the text's length stands beside it.
pub(crate) struct Text<'a> {
    buffer: &'a mut [u8],
    end: usize,
    ghost fits: { end ≤ length buffer.now },
}

// Each method that changes the text says that it stands in the same buffer, since a caller knows of a changed text only what
// is said.
impl<'a> Text<'a> {
    ghost use Rattle.mending.specs.Texts.{text_of, SameBuffer};

    /// No text yet, in this buffer.
    pub(crate) fn new(buffer: &'a mut [u8]) -> Text<'a>
        ensures same_reference { result.buffer.ghost_name ≡ buffer.entry.ghost_name }
        ensures same_bytes { result.buffer.now ≡ buffer.old }
        ensures empty { result.end ≡ 0 }
    {
        Text { buffer, end: 0 }
    }

    /// The bytes of the text.
    fn bytes(&self) -> &[u8]
        ensures { result.now ≡ text_of self.now }
    {
        &self.buffer[..self.end]
    }

    /// Adds a byte.
    fn push(&mut self, byte: u8)
        requires { self.old.end < length self.old.buffer.now }
        ensures keeps { SameBuffer self.old self.new }
        ensures adds { text_of self.new ≡ text_of self.old ++ byte ∷ [] }
        ensures grows { self.new.end ≡ self.old.end + 1 }
    {
        self.buffer[self.end] = byte;
        self.end += 1;
    }

    /// Adds the bytes before the first slash, each replaced, and answers how many these were.
    fn push_replaced(&mut self, rest: &[u8]) -> usize
        requires { self.old.end + length rest.now ≤ length self.old.buffer.now }
        ensures reads { FirstEnds rest.now result }
        ensures keeps { SameBuffer self.old self.new }
        ensures adds { text_of self.new
            ≡ text_of self.old ++ replaced (byte "/") (take result rest.now) }
        ensures bound { (self.old.end ≤ self.new.end)
            × (self.new.end ≤ self.old.end + result) }
    {
        let progress = write_replaced(rest, &mut self.buffer[self.end..]);
        self.end += progress.written;
        progress.read
    }

    /// Takes `.lock` off the end of what stands from `start` on, as often as it is there.
    fn drop_locks(&mut self, start: usize)
        requires { start ≤ self.old.end }
        ensures keeps { SameBuffer self.old self.new }
        ensures bound { self.new.end ≤ self.old.end }
        ensures drops { text_of self.new
            ≡ take start (text_of self.old) ++ without_lock (drop start (text_of self.old)) }
    {
        // Five bytes are what `ends_in_lock` finds there; `strip_suffix` would spell `.lock` a second time.
        while ends_in_lock(&self.bytes()[start..]) {
            self.end -= 5;
        }
    }

    /// Adds the component before the first slash, mended, with a slash before it unless it is the first, and answers how many bytes
    /// it has. An empty one adds nothing.
    fn push_component(&mut self, rest: &[u8]) -> usize
        requires { gap self.old.end + length rest.now ≤ length self.old.buffer.now }
        ensures reads { FirstEnds rest.now result }
        ensures keeps { SameBuffer self.old self.new }
        ensures adds { text_of self.new ≡ add (text_of self.old) (take result rest.now) }
        ensures bound { self.new.end ≤ gap self.old.end + result }
    {
        if begins_empty(rest) {
            return 0;
        }
        if self.end > 0 {
            self.push(b'/');
        }
        let start = self.end;
        let read = self.push_replaced(rest);
        self.drop_locks(start);
        read
    }

    /// Adds the components of an input to a text that has no byte yet.
    pub(crate) fn push_components(&mut self, input: &[u8])
        requires empty { self.old.end ≡ 0 }
        requires room { length input.now ≤ length self.old.buffer.now }
        ensures keeps { SameBuffer self.old self.new }
        ensures adds { text_of self.new ≡ add_all [] (components input.now) }
    {
        let mut rest = input;
        loop {
            let read = self.push_component(rest);
            if read == rest.len() {
                return;
            }
            rest = &rest[read + 1..];
        }
    }

    /// Mends the ends of the text: a dash for a last dot, and for a text that is empty or `@`.
    pub(crate) fn mend_ends(&mut self)
        requires { 0 < length self.old.buffer.now }
        ensures keeps { SameBuffer self.old self.new }
        ensures mends { text_of self.new ≡ dash_alone (dash_end (text_of self.old)) }
    {
        if self.end == 0 {
            self.push(b'-');
        } else if wants_dash(self.bytes()) {
            self.buffer[self.end - 1] = b'-';
        }
    }

    /// Clears what the text leaves of the buffer, and answers the text's length.
    pub(crate) fn finish(self) -> usize
        ensures value { result ≡ length (text_of self.entry) }
        ensures cleared { self.exit.0.now
            ≡ text_of self.entry ++ replicate (length self.entry.buffer.now - result) 0 }
    {
        let Text { buffer, end } = self;
        buffer[end..].fill(0);
        end
    }
}
