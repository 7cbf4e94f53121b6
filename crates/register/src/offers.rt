//! The call that a register has whose rulebook mends: offer.
ghost use Rattle.std.specs.Prelude.{◌≡◌, ◌≤◌, length};
ghost use Rattle.tag.specs.Answers.Answer.{allowed};
ghost use Rattle.register_model.specs.Calls.{answer, entering};
ghost use Rattle.register_model.specs.Calls.Call.{offer as an_offer};
ghost use Rattle.register_model.specs.declared.TheConstants.{LONGEST_NAME};
ghost use Rattle.register.specs.Faults.{outcome_of};
ghost use Rattle.register.specs.Registers.{IsMade, entries_in, meaning_in};

use crate::Register;
use crate::checks::check_length;
use crate::faults::Fault;
use filesystems::FileSystem;
use register_model::LONGEST_NAME;
use rulebooks::{MendingRulebook, mend_into};

impl<R: MendingRulebook, F: FileSystem> Register<R, F> {
    /// Mends a text and puts the mended text in, with its number and no mode, and answers its place. It is refused by 32 for
    /// the text, and then as an enter of the mended text is.
    pub fn offer(&mut self, text: &[u8], number: u32) -> Result<usize, Fault>
        ensures made { IsMade R.MendingRulebook.mended self.old self.new
            (an_offer text.now number) result }
        ensures as_mended { length text.now ≤ LONGEST_NAME
            → outcome_of result
            ≡ entering (meaning_in R.MendingRulebook.mended self.old) (entries_in self.old)
            (R.MendingRulebook.mended text.now) None }
        ensures as_allowed { length text.now ≤ LONGEST_NAME → R.Rulebook.meaning text.now ≡ allowed
            → outcome_of result
            ≡ entering (meaning_in R.MendingRulebook.mended self.old) (entries_in self.old)
            text.now None }
    {
        check_length(text)?;
        // Only its front is used, and at once: an `ArrayVec` would have to be given all its bytes first and shortened after.
        let mut buffer = [0; LONGEST_NAME];
        let length = mend_into(&self.rules, text, &mut buffer).unwrap();
        self.enter(&buffer[..length], number, None)
    }
}
