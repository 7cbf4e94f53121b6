//! A protection that is one of the five.
ghost use Rattle.std.specs.Prelude.{◌≡◌, ◌↔◌, ◌⊎◌, ℕ, List, Option, Contains, IsTrue, slice_index};
ghost use Rattle.protections.specs.declared.rules.Mode.TheVariants.{Symlink};
ghost use Rattle.protections.specs.Rules.{numbered, has_illegal, ends_illegally};
ghost use Rattle.std.specs.Str.{byte};
ghost use Rattle.characters.specs.Reader.{code_points};
ghost use Rattle.protections.specs.Keys.{device_key};
ghost use Rattle.protections.specs.Names.{devices};
ghost use Rattle.piles.specs.AnyProtection.{StandsForGit, StandsForModules, rule_of, key_of, yielded_of, ignored_of};
ghost use Rattle.piles.specs.AnyProtectionLemmas.{key_of-trimmed, key_of-bounded};

use protections::{
    Hfs, Keyed, Mode, Ntfs, Plain, Protection, Verdict, WindowsDevices, WindowsNames,
};

/// One of the five protections, itself a protection: each case has the key and the verdict of the
/// protection of its name.
// The default is what stands in the places of an `ArrayVec` that are free.
#[derive(Clone, Copy, Debug, Default, PartialEq, Eq)]
pub enum AnyProtection {
    WindowsNames,
    Hfs,
    Ntfs,
    WindowsDevices,
    #[default]
    Plain,
}

impl Keyed for AnyProtection {
    ghost key = { λ p s. key_of p s };

    ghost yielded = { λ p s. yielded_of p s };

    ghost ignored_at_end = { λ p. ignored_of p };

    ghost key_of_yielded = { λ p s. key_of-trimmed p s };

    ghost bounded = { λ p s h. key_of-bounded p s h };

    fn advance(&self, rest: &mut &[u8]) -> Option<u32> {
        match self {
            AnyProtection::WindowsNames => WindowsNames.advance(rest),
            AnyProtection::Hfs => Hfs.advance(rest),
            AnyProtection::Ntfs => Ntfs.advance(rest),
            AnyProtection::WindowsDevices => WindowsDevices.advance(rest),
            AnyProtection::Plain => Plain.advance(rest),
        }
    }

    fn is_ignored_at_end(&self, number: u32) -> bool {
        match self {
            AnyProtection::WindowsNames => WindowsNames.is_ignored_at_end(number),
            AnyProtection::Hfs => Hfs.is_ignored_at_end(number),
            AnyProtection::Ntfs => Ntfs.is_ignored_at_end(number),
            AnyProtection::WindowsDevices => WindowsDevices.is_ignored_at_end(number),
            AnyProtection::Plain => Plain.is_ignored_at_end(number),
        }
    }
}

impl Protection for AnyProtection {
    ghost use Rattle.protections.specs.declared.rules.Mode.{Mode};

    ghost verdict_of = { λ p s mode. rule_of p s mode };

    #[tactic(auto, unfolding(protections::specs::Rules::windows_rule, protections::specs::Rules::hfs_rule, protections::specs::Rules::ntfs_rule, protections::specs::Rules::device_rule, protections::specs::Rules::plain_rule))]
    fn verdict(&self, component: &[u8], mode: Option<Mode>) -> Option<Verdict>
        ensures value { numbered result ≡ rule_of self.now component.now mode }
        ensures verdicts { (p : AnyProtection) (s : List ℕ) (m : Option Mode)
            → ⟦<AnyProtection as Protection>⟧.verdict_of p s m ≡ rule_of p s m }
        ensures key { (p : AnyProtection) (s : List ℕ)
            → ⟦<AnyProtection as Keyed>⟧.key p s ≡ key_of p s }

        // Which components have each number, in words.
        ensures separator { (numbered result ≡ Some 22)
            ↔ (self.now ≡ AnyProtection.WindowsNames) × Contains component.now (byte "\\") }
        ensures drive { (numbered result ≡ Some 23)
            ↔ (self.now ≡ AnyProtection.WindowsNames)
            × (slice_index (code_points component.now) 1 ≡ byte ":")
            × (Contains component.now (byte "\\") → ⊥) }
        ensures device { (numbered result ≡ Some 24)
            ↔ (self.now ≡ AnyProtection.WindowsDevices)
            × Contains devices (device_key component.now) }
        ensures illegal { (numbered result ≡ Some 25)
            ↔ (self.now ≡ AnyProtection.WindowsDevices)
            × (Contains devices (device_key component.now) → ⊥)
            × (IsTrue (has_illegal component.now) ⊎ IsTrue (ends_illegally component.now)) }
        ensures git { (numbered result ≡ Some 26) ↔ StandsForGit self.now component.now }
        ensures link { (numbered result ≡ Some 27)
            ↔ (mode ≡ Some Symlink)
            × StandsForModules self.now component.now
            × (StandsForGit self.now component.now → ⊥) }
    {
        match self {
            AnyProtection::WindowsNames => WindowsNames.verdict(component, mode),
            AnyProtection::Hfs => Hfs.verdict(component, mode),
            AnyProtection::Ntfs => Ntfs.verdict(component, mode),
            AnyProtection::WindowsDevices => WindowsDevices.verdict(component, mode),
            AnyProtection::Plain => Plain.verdict(component, mode),
        }
    }
}
