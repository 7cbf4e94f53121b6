//! File systems: which components they refuse, and which they take for one another.
#![tactic(auto)]

mod interface;
mod layers;
mod piles;
mod plain_bottom;
mod refusal;
mod storage;

pub use interface::FileSystem;
pub use layers::Layer;
pub use piles::{
    AllProtections, HfsOverNtfs, WindowsPile, all_protections, hfs_over_ntfs, windows_pile,
};
pub use plain_bottom::PlainBottom;
pub use refusal::DeclareError;
pub use storage::DeclaredBottom;
