//! Verdicts on components, and what a protection is.
ghost use Rattle.std.specs.Prelude.{◌≡◌, ℕ, Bool, if◌then◌else◌, List, Some, None, Option, bytes_eq};
ghost use Rattle.protections.specs.Texts.{text_of};
ghost use Rattle.protections.specs.Names.{git, modules};
ghost use Rattle.protections.specs.Rules.{verdict_number, numbered, guarded, is_symlink};

use crate::keys::{Keyed, named};
use std::fmt;

/// The kind of a path's last component, where it matters.
#[derive(Clone, Copy, PartialEq, Eq, Debug)]
pub enum Mode {
    /// A symbolic link.
    Symlink,
}

/// Why a component is refused.
#[derive(Clone, Copy, PartialEq, Eq, Debug)]
pub enum Verdict {
    PathSeparator = 22,
    WindowsPathPrefix = 23,
    WindowsReservedName = 24,
    WindowsIllegalCharacter = 25,
    DotGitDir = 26,
    SymlinkedGitModules = 27,
}

impl Verdict {
    /// The number of the verdict, from 22 to 27.
    pub fn number(&self) -> u8
        ensures { result ≡ verdict_number self.now }
    {
        *self as u8
    }

    /// What the verdict says, in plain words.
    pub fn text(&self) -> &'static str
        ensures { result.now ≡ text_of self.now }
    {
        match *self {
            Verdict::PathSeparator => "the name contains a slash or a backslash",
            Verdict::WindowsPathPrefix =>
                "the name begins like a Windows drive, a character and a colon",
            Verdict::WindowsReservedName => "the name is reserved for a device on Windows",
            Verdict::WindowsIllegalCharacter =>
                "the name has a character that Windows does not allow, or ends in a dot or a space",
            Verdict::DotGitDir => "the name stands for .git, which belongs to Git",
            Verdict::SymlinkedGitModules =>
                "the name stands for .gitmodules, which may not be a symbolic link",
        }
    }
}

/// The text of the refusal.
impl fmt::Display for Verdict {
    ghost output = { λ v. Some (text_of v) };

    fn fmt<W: fmt::Write>(&self, f: &mut fmt::Formatter<W>) -> fmt::Result {
        f.write_str(self.text())
    }
}

impl std::error::Error for Verdict {}

/// A protection: a key, and a verdict on a component and its mode.
pub trait Protection: Keyed {
    ghost use Rattle.protections.specs.declared.rules.Mode.{Mode};

    // The number of the verdict on a component and its mode, if there is one.
    ghost verdict_of: { Self → List ℕ → Option Mode → Option ℕ };

    // An Option and no Result, here and in all that pass a verdict on, and the mode is an Option passed to each: a fixed form,
    // docs/DECISIONS.md.
    /// The verdict on a component, if it is refused.
    fn verdict(&self, component: &[u8], mode: Option<Mode>) -> Option<Verdict>
        ensures { numbered result ≡ verdict_of self.now component.now mode };
}

// Whether the component is a symbolic link.
pub(crate) fn is_link(mode: Option<Mode>) -> bool
    ensures { result ≡ is_symlink mode }
{
    mode == Some(Mode::Symlink)
}

// The verdict on a name that is taken for `.git`, or on a link that is taken for `.gitmodules`.
pub(crate) fn git_verdict(is_git: bool, linked_modules: bool) -> Option<Verdict>
    ensures { numbered result
        ≡ if is_git then Some 26 else if linked_modules then Some 27 else None }
{
    if is_git {
        return Some(Verdict::DotGitDir);
    }
    linked_modules.then_some(Verdict::SymlinkedGitModules)
}

// The verdict on a component by whether it yields the numbers of `.git` or of `.gitmodules`.
pub(crate) fn verdict_by_key<K: Keyed>(
    protection: &K,
    component: &[u8],
    mode: Option<Mode>,
) -> Option<Verdict>
    ensures { numbered result
        ≡ guarded (bytes_eq (K.Keyed.yielded protection.now component.now) git)
        (bytes_eq (K.Keyed.yielded protection.now component.now) modules) mode }
{
    let linked_modules = is_link(mode) && named(protection, component, b".gitmodules");
    git_verdict(named(protection, component, b".git"), linked_modules)
}
