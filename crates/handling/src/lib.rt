//! A list of texts, one to a line, turned into handles: the report as a value.
#![tactic(auto)]

ghost use Rattle.std.specs.Prelude.{◌≡◌, ◌≤◌, ◌+◌, [], ◌++◌, IfOk, string_bytes, codes, decimal, length, OnOk};
ghost use Rattle.mending.specs.Mender.{mended};
ghost use Rattle.reference.specs.Names.{partial_name};
ghost use Rattle.handling.specs.Report.{kept_by, line_of, report_of, summary};

use lines::Lines;
use std::alloc::{AllocError, Global};

/// The handle that a text is mended to.
// The mender writes to a caller's buffer and answers a length, a fixed form (docs/DECISIONS.md): so the vector is shortened to that
// length here.
pub fn handle(heap: Global, text: &[u8]) -> Result<Vec<u8>, AllocError>
    ensures { IfOk result (λ v. v.items ≡ mended text.now) }
{
    let room = text.len().max(1);
    let mut buffer = vec![in heap; 0u8; room]?;
    let length = reference::name_partial_or_sanitize(text, buffer.as_mut_slice()).unwrap();
    buffer.truncate(length);
    Ok(buffer)
}

/// The report so far: its bytes, one line for each text that it was given, and how many of these texts are kept.
// A text need not be UTF-8, so it is no String; `write!` to a Vec gives an error of IO, and here only memory may fail.
// A model of the three fields, for one clause in place of three, was tried: `add_line` adds to `kept` after a call, and there
// the proof needs the invariant before it, which a model does not tell.
#[derive(Drop)]
struct Draft {
    bytes: Vec<u8>,
    lines: usize,
    kept: usize,
    ghost each_has_bytes: { lines ≤ length bytes.items },
    ghost among_the_lines: { kept ≤ lines },
}

impl Draft {
    /// The report of no text.
    fn new(heap: Global) -> Draft
        ensures bytes { result.bytes.items ≡ [] }
        ensures counts { (result.lines ≡ 0) × (result.kept ≡ 0) }
    {
        Draft {
            bytes: Vec::new(heap),
            lines: 0,
            kept: 0,
        }
    }

    /// Adds a line: these words, and then these bytes.
    fn push_line(&mut self, words: &str, bytes: &[u8]) -> Result<(), AllocError>
        ensures bytes { OnOk result (self.new.bytes.items
            ≡ self.old.bytes.items ++ (words.now ++ (bytes.now ++ codes "\n"))) }
        ensures lines { OnOk result (self.new.lines ≡ self.old.lines + 1) }
        ensures kept { self.new.kept ≡ self.old.kept }
    {
        self.bytes.extend_from_slice(words.as_bytes())?;
        self.bytes.extend_from_slice(bytes)?;
        self.bytes.push(b'\n')?;
        // Counted here, since a count of its own would go through the lines, and check each text, once more.
        self.lines += 1;
        Ok(())
    }

    /// Adds the line of a text that is mended since it was refused by this number.
    fn add_mended(&mut self, number: u8, text: &[u8]) -> Result<(), AllocError>
        ensures bytes { OnOk result (self.new.bytes.items
            ≡ self.old.bytes.items ++ (codes "mended " ++ (decimal number
            ++ (codes " " ++ (mended text.now ++ codes "\n"))))) }
        ensures lines { OnOk result (self.new.lines ≡ self.old.lines + 1) }
        ensures kept { self.new.kept ≡ self.old.kept }
    {
        let heap = *self.bytes.allocator();
        let words = format!(in heap; "mended {number} ")?;
        let handle = handle(heap, text)?;
        self.push_line(words.as_str(), handle.as_slice())
    }

    /// Adds the line of a text.
    fn add_line(&mut self, text: &[u8]) -> Result<(), AllocError>
        ensures bytes { OnOk result (self.new.bytes.items
            ≡ self.old.bytes.items ++ line_of text.now) }
        ensures lines { OnOk result (self.new.lines ≡ self.old.lines + 1) }
        ensures kept { OnOk result (self.new.kept
            ≡ self.old.kept + kept_by (partial_name text.now)) }
    {
        match reference::name_partial(text) {
            Ok(_) => {
                self.push_line("kept ", text)?;
                self.kept += 1;
                Ok(())
            }
            Err(fault) => self.add_mended(fault.number(), text),
        }
    }

    /// The whole report: the lines of the texts, and then how many there are, how many are kept, and how many are mended.
    fn finish(self) -> Result<Vec<u8>, AllocError>
        ensures { IfOk result (λ v. v.items ≡ self.bytes.items ++ summary self.lines self.kept) }
    {
        let Draft {
            mut bytes,
            lines,
            kept,
        } = self;
        let mended = lines - kept;
        let last = format!(in *bytes.allocator(); "lines {lines} kept {kept} mended {mended}\n")?;
        bytes.extend_from_slice(last.as_bytes())?;
        Ok(bytes)
    }
}

/// The report for an input: a line for each of its lines, and then the last line.
pub fn report(heap: Global, input: &[u8]) -> Result<Vec<u8>, AllocError>
    ensures { IfOk result (λ v. v.items ≡ report_of input.now) }
{
    let mut report = Draft::new(heap);
    for line in Lines::of(input) {
        report.add_line(line)?;
    }
    report.finish()
}
