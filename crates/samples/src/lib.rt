//! Samples of the rules, as one statement that is proved of the definitions.
#![tactic(auto)]

ghost use Rattle.std.specs.Prelude.{◌≡◌, length};
ghost use Rattle.std.specs.List.{AllByRecursion};
ghost use Rattle.samples.specs.Samples.{IsSo, samples as listed};

/// How many samples are listed. What each says holds.
pub fn proved() -> usize
    ensures count { result ≡ length listed }
    ensures each { AllByRecursion IsSo listed }
{
    16
}
