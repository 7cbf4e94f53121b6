//! Whether a path component is safe to write into a working tree.
#![tactic(auto)]

ghost use Rattle.std.specs.Prelude.{◌≡◌, ◌↔◌, ◌&&◌, IfOk, Some, IsTrue, Contains};
ghost use Rattle.protections.specs.Keys.{device_key};
ghost use Rattle.protections.specs.Names.{devices};
ghost use Rattle.protections.specs.Rules.{numbered, verdict_number, plain_rule, is_device};
ghost use Rattle.path.specs.Answer.{refusal_of, number_of, text_of};
ghost use Rattle.tag.specs.Components.{is_relative};
ghost use Rattle.path.specs.Order.{IsFirstRefusal};
ghost use Rattle.path.specs.Rule.{if_on, verdict_before, component_rule, component_rule_by_need};

pub use protections::Mode;
use protections::{
    Hfs, Ntfs, Plain, Protection, Verdict, WindowsDevices, WindowsNames, names_device,
};
use std::fmt;
use words::NameRefusal;

/// Why a component is refused.
// The error keeps the ported crate's case names, a fixed form (docs/DECISIONS.md), so it has the six cases of a verdict and no case
// that holds one. An enum for both would let a verdict say that the name is empty or relative.
#[derive(Clone, Copy, PartialEq, Eq, Debug)]
pub enum Error {
    Empty = 21,
    PathSeparator = 22,
    WindowsPathPrefix = 23,
    WindowsReservedName = 24,
    WindowsIllegalCharacter = 25,
    DotGitDir = 26,
    SymlinkedGitModules = 27,
    Relative = 28,
}

impl Error {
    /// The error in plain words.
    pub fn text(&self) -> &'static str
        ensures { result.now ≡ text_of self.now }
    {
        match *self {
            Error::Empty => NameRefusal::EmptyComponent.text(),
            Error::PathSeparator => Verdict::PathSeparator.text(),
            Error::WindowsPathPrefix => Verdict::WindowsPathPrefix.text(),
            Error::WindowsReservedName => Verdict::WindowsReservedName.text(),
            Error::WindowsIllegalCharacter => Verdict::WindowsIllegalCharacter.text(),
            Error::DotGitDir => Verdict::DotGitDir.text(),
            Error::SymlinkedGitModules => Verdict::SymlinkedGitModules.text(),
            Error::Relative => NameRefusal::RelativeComponent.text(),
        }
    }

    /// The number of the error, from 21 to 28.
    pub fn number(&self) -> u8
        ensures { result ≡ number_of self.now }
    {
        *self as u8
    }
}

impl fmt::Display for Error {
    ghost output = { λ e. Some (text_of e) };

    fn fmt<W: fmt::Write>(&self, f: &mut fmt::Formatter<W>) -> fmt::Result {
        f.write_str(self.text())
    }
}

impl std::error::Error for Error {}

impl From<Verdict> for Error {
    ghost from_gives = { λ v e. number_of e ≡ verdict_number v };

    // A table, since no conversion goes from a number to a case, and each case passes to the one of its name.
    fn from(verdict: Verdict) -> Error {
        match verdict {
            Verdict::PathSeparator => Error::PathSeparator,
            Verdict::WindowsPathPrefix => Error::WindowsPathPrefix,
            Verdict::WindowsReservedName => Error::WindowsReservedName,
            Verdict::WindowsIllegalCharacter => Error::WindowsIllegalCharacter,
            Verdict::DotGitDir => Error::DotGitDir,
            Verdict::SymlinkedGitModules => Error::SymlinkedGitModules,
        }
    }
}

/// Which protections are on.
#[derive(Clone, Copy, PartialEq, Eq, Debug)]
pub struct Options {
    pub protect_windows: bool,
    pub protect_hfs: bool,
    pub protect_ntfs: bool,
}

impl Options {
    // The names of devices matter where Windows and NTFS do.
    fn protect_devices(&self) -> bool
        ensures { result ≡ (self.now.protect_windows && self.now.protect_ntfs) }
    {
        self.protect_windows && self.protect_ntfs
    }
}

// All are on, where a derive would turn all off.
impl Default for Options {
    ghost is_default = { λ o.
        IsTrue o.protect_windows × IsTrue o.protect_hfs × IsTrue o.protect_ntfs };

    fn default() -> Options {
        Options {
            protect_windows: true,
            protect_hfs: true,
            protect_ntfs: true,
        }
    }
}

// The verdict of a protection, if it is on: an Option, as each verdict. `then` and `flatten` would say the same less plainly.
fn asked<P: Protection>(
    on: bool,
    protection: &P,
    input: &[u8],
    mode: Option<Mode>,
) -> Option<Verdict>
    ensures { numbered result ≡ if_on on (P.Protection.verdict_of protection.now input.now mode) }
{
    if on {
        protection.verdict(input, mode)
    } else {
        None
    }
}

// The first verdict of the protections that are on.
#[tactic(auto, unfolding(crate::specs::Rule::verdict_before))]
fn first_verdict(input: &[u8], mode: Option<Mode>, options: Options) -> Option<Verdict>
    ensures { numbered result ≡ verdict_before input.now mode options (plain_rule input.now mode) }
{
    asked(options.protect_windows, &WindowsNames, input, mode)
        .or_else(|| asked(options.protect_hfs, &Hfs, input, mode))
        .or_else(|| asked(options.protect_ntfs, &Ntfs, input, mode))
        .or_else(|| asked(options.protect_devices(), &WindowsDevices, input, mode))
        .or_else(|| Plain.verdict(input, mode))
}

// Whether the component is `.` or `..`.
fn relative(input: &[u8]) -> bool
    ensures { result ≡ is_relative input.now }
{
    matches!(input, b"." | b"..")
}

/// The component itself, if the protections that are on let it pass.
#[tactic(auto, using(crate::proofs::ByNeed::by_need, crate::proofs::FirstRefusal::first_refused), unfolding(crate::specs::Rule::component_rule))]
pub fn component(input: &[u8], mode: Option<Mode>, options: Options) -> Result<&[u8], Error>
    ensures answer { refusal_of result ≡ component_rule input.now mode options }
    ensures first { IsFirstRefusal input.now mode options (refusal_of result) }
    ensures view { IfOk result (λ v. v ≡ input.entry) }
    ensures plain_by_need { component_rule input.now mode options
        ≡ component_rule_by_need input.now mode options }
{
    if input.is_empty() {
        return Err(Error::Empty);
    }
    if relative(input) {
        return Err(Error::Relative);
    }
    if input.contains(&b'/') {
        return Err(Error::PathSeparator);
    }
    first_verdict(input, mode, options).map_or(Ok(input), |verdict| Err(Error::from(verdict)))
}

/// Whether the component's device key is one of the listed names, as of `CON` or `LPT1`.
pub fn component_is_windows_device(input: &[u8]) -> bool
    ensures value { result ≡ is_device input.now }
    ensures decides { IsTrue result ↔ Contains devices (device_key input.now) }
{
    // No name of a device is shorter. The test is made here too, since without it one byte takes half as long again.
    if input.len() < 3 {
        return false;
    }
    names_device(input)
}
