//! Five protections against names that a file system takes for others: their keys and their verdicts.
#![tactic(auto)]

mod first_bytes;
mod hfs_names;
mod keys;
mod name_ends;
mod ntfs_names;
mod plain_names;
mod rules;
mod small_letters;
mod windows_devices;
mod windows_names;

pub use hfs_names::Hfs;
pub use keys::{Cursor, Keyed, same_key};
pub use ntfs_names::Ntfs;
pub use plain_names::Plain;
pub use rules::{Mode, Protection, Verdict};
pub use windows_devices::{WindowsDevices, names_device};
pub use windows_names::WindowsNames;
