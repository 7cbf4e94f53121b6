//! The flags that say which protections are on.
ghost use Rattle.std.specs.Prelude.{◌≡◌};

use path::Options;

/// Which of the flags of `component` were given.
#[derive(Clone, Copy, PartialEq, Eq, Debug)]
pub struct Flags {
    /// `--windows`
    pub windows: bool,
    /// `--hfs`
    pub hfs: bool,
    /// `--ntfs`
    pub ntfs: bool,
    /// `--none`
    pub none: bool,
}

impl Flags {
    ghost use Rattle.command_line.specs.Flags.{options_of};

    /// The protections that are on: none with `--none`, else those that were named, and all where
    /// none was named.
    pub fn options(&self) -> Options
        ensures { result ≡ options_of self.now }
    {
        let all = !(self.windows || self.hfs || self.ntfs);
        Options {
            protect_windows: !self.none && (all || self.windows),
            protect_hfs: !self.none && (all || self.hfs),
            protect_ntfs: !self.none && (all || self.ntfs),
        }
    }
}
