//! The report of answers and kept names, as bytes.
ghost use Rattle.std.specs.Prelude.{◌≡◌, ◌++◌, Option, map, IfOk, OnOk};
ghost use Rattle.std.specs.List.{flat_map};
ghost use Rattle.std.specs.Option.{option_map};
ghost use Rattle.register.specs.Faults.{outcome_of};
ghost use Rattle.register.specs.Registers.{entries_in};
ghost use Rattle.register.specs.Shown.{shown};
ghost use Rattle.listing.specs.Report.{answer_lines, count_line, entry_line, report_for, line_for};
ghost use Rattle.listing.specs.Parts.{outcome_at};

use filesystems::FileSystem;
use register::{Entry, Register};
use rulebooks::Rulebook;
use runs::{Answer, audit};
use std::alloc::{AllocError, Global};

/// The report so far.
// A name need not be UTF-8, so it is no String; `write!` to a Vec gives an error of IO, and here only memory may fail.
#[derive(Drop)]
struct Draft {
    bytes: Vec<u8>,
}

impl Draft {
    /// Adds words.
    fn push_words(&mut self, words: &str) -> Result<(), AllocError>
        ensures { OnOk result (self.new.bytes.items ≡ self.old.bytes.items ++ words.now) }
    {
        self.bytes.extend_from_slice(words.as_bytes())
    }

    /// Adds a word and a count, on a line.
    fn add_count(&mut self, word: &str, count: usize) -> Result<(), AllocError>
        ensures { OnOk result (self.new.bytes.items
            ≡ self.old.bytes.items ++ count_line word.now count) }
    {
        let line = format!(in *self.bytes.allocator(); "{word} {count}\n")?;
        self.push_words(line.as_str())
    }

    /// Adds the line of an answer, or where there is none, of a line that is no call.
    fn add_answer(&mut self, answer: Option<&Answer>) -> Result<(), AllocError>
        ensures { OnOk result (self.new.bytes.items
            ≡ self.old.bytes.items ++ line_for (option_map outcome_at answer.entry)) }
    {
        match answer {
            Some(Ok(_)) => self.push_words("ok\n"),
            Some(Err(fault)) => {
                let line = format!(in *self.bytes.allocator(); "refused {}\n", fault.number())?;
                self.push_words(line.as_str())
            }
            None => self.push_words("unread\n"),
        }
    }

    /// Adds the lines of what came of each line of an input, from whether each is a call and the answers of the calls.
    fn add_answers(&mut self, are_calls: &[bool], answers: &[Answer]) -> Result<(), AllocError>
        ensures { OnOk result (self.new.bytes.items
            ≡ self.old.bytes.items ++ answer_lines are_calls.now (map outcome_of answers.now)) }
    {
        let mut left = answers.iter();
        for is_call in are_calls {
            let answer = if *is_call { left.next() } else { None };
            self.add_answer(answer)?;
        }
        Ok(())
    }

    /// Adds the line of an entry.
    fn add_entry(&mut self, entry: Entry<'_>) -> Result<(), AllocError>
        ensures { OnOk result (self.new.bytes.items
            ≡ self.old.bytes.items ++ entry_line (shown entry.entry)) }
    {
        let number = format!(in *self.bytes.allocator(); "{} ", entry.number)?;
        self.push_words(number.as_str())?;
        self.bytes.extend_from_slice(entry.name)?;
        self.bytes.push(b'\n')?;
        Ok(())
    }

    /// Adds the lines of all entries, in the order of their places.
    fn add_entries<R: Rulebook, F: FileSystem>(
        &mut self,
        register: &Register<R, F>,
    ) -> Result<(), AllocError>
        ensures { OnOk result (self.new.bytes.items
            ≡ self.old.bytes.items ++ flat_map entry_line (entries_in register.now)) }
    {
        for entry in register.entries() {
            self.add_entry(entry)?;
        }
        Ok(())
    }
}

/// The report for the lines of an input, from whether each is a call and the answers of the calls, and for a register after them.
pub fn write_report<R: Rulebook, F: FileSystem>(
    heap: Global,
    are_calls: &[bool],
    answers: &[Answer],
    register: &Register<R, F>,
) -> Result<Vec<u8>, AllocError>
    ensures { IfOk result (λ v. v.items
        ≡ report_for are_calls.now (map outcome_of answers.now) (entries_in register.now)) }
{
    let mut report = Draft {
        bytes: Vec::new(heap),
    };
    report.add_count("answers", are_calls.len())?;
    report.add_answers(are_calls, answers)?;
    report.add_count("names", audit(register))?;
    report.add_entries(register)?;
    Ok(report.bytes)
}
