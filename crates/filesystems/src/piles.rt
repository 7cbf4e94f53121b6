//! Piles of protections that programs use.
ghost use Rattle.std.specs.Prelude.{◌≡◌, ℕ, ◌⊎◌, ◌↔◌, List, [], ◌∷◌, Option, IsTrue};
ghost use Rattle.std.specs.Option.{option_or};
ghost use Rattle.protections.specs.Keys.{hfs_key, ntfs_key};
ghost use Rattle.protections.specs.Rules.{windows_rule, hfs_rule, ntfs_rule, device_rule, plain_rule};
ghost use Rattle.filesystems.specs.Keys.{bytes_key};
ghost use Rattle.filesystems.specs.Pairs.{Confused};

use crate::interface::FileSystem;
use crate::layers::Layer;
use crate::plain_bottom::PlainBottom;
use crate::storage::DeclaredBottom;
use protections::{Hfs, Mode, Ntfs, Plain, WindowsDevices, WindowsNames};

/// HFS+ over NTFS over the plain bottom.
pub type HfsOverNtfs = Layer<Hfs, Layer<Ntfs, PlainBottom>>;

/// Windows names over NTFS over Windows devices over the plain bottom.
pub type WindowsPile = Layer<WindowsNames, Layer<Ntfs, Layer<WindowsDevices, PlainBottom>>>;

/// All five protections over a declared bottom.
pub type AllProtections = Layer<
    WindowsNames,
    Layer<Hfs, Layer<Ntfs, Layer<WindowsDevices, Layer<Plain, DeclaredBottom>>>>,
>;

/// HFS+ over NTFS over the plain bottom.
pub fn hfs_over_ntfs() -> HfsOverNtfs
    ensures verdicts { (s : List ℕ) (mode : Option Mode)
        → ⟦<HfsOverNtfs as FileSystem>⟧.verdict_of result s mode
        ≡ option_or (hfs_rule s mode) (option_or (ntfs_rule s mode) (plain_rule s mode)) }
    ensures confuses { (a b : List ℕ)
        → IsTrue (⟦<HfsOverNtfs as FileSystem>⟧.together result a b)
        ↔ ((hfs_key a ≡ hfs_key b) ⊎ ((ntfs_key a ≡ ntfs_key b) ⊎ (a ≡ b))) }
    ensures compares { ⟦<HfsOverNtfs as FileSystem>⟧.keys result
        ≡ hfs_key ∷ ntfs_key ∷ bytes_key ∷ [] }
{
    Layer::new(Hfs, Layer::new(Ntfs, PlainBottom))
}

/// Windows names over NTFS over Windows devices over the plain bottom.
pub fn windows_pile() -> WindowsPile
    ensures verdicts { (s : List ℕ) (mode : Option Mode)
        → ⟦<WindowsPile as FileSystem>⟧.verdict_of result s mode
        ≡ option_or (windows_rule s mode)
        (option_or (ntfs_rule s mode) (option_or (device_rule s mode) (plain_rule s mode))) }
    ensures confuses { (a b : List ℕ)
        → IsTrue (⟦<WindowsPile as FileSystem>⟧.together result a b)
        ↔ ((ntfs_key a ≡ ntfs_key b) ⊎ (a ≡ b)) }
    ensures compares { ⟦<WindowsPile as FileSystem>⟧.keys result
        ≡ bytes_key ∷ ntfs_key ∷ bytes_key ∷ bytes_key ∷ [] }
{
    Layer::new(
        WindowsNames,
        Layer::new(Ntfs, Layer::new(WindowsDevices, PlainBottom)),
    )
}

/// Windows names over HFS+ over NTFS over Windows devices over Plain over the bottom.
pub fn all_protections(bottom: DeclaredBottom) -> AllProtections
    ensures verdicts { (s : List ℕ) (mode : Option Mode)
        → ⟦<AllProtections as FileSystem>⟧.verdict_of result s mode
        ≡ option_or (windows_rule s mode)
        (option_or (hfs_rule s mode)
        (option_or (ntfs_rule s mode)
        (option_or (device_rule s mode) (plain_rule s mode)))) }
    ensures confuses { (a b : List ℕ)
        → IsTrue (⟦<AllProtections as FileSystem>⟧.together result a b)
        ↔ ((hfs_key a ≡ hfs_key b) ⊎ ((ntfs_key a ≡ ntfs_key b) ⊎ Confused bottom a b)) }
    ensures compares { ⟦<AllProtections as FileSystem>⟧.keys result
        ≡ bytes_key ∷ hfs_key ∷ ntfs_key ∷ bytes_key ∷ bytes_key ∷ bytes_key ∷ [] }
{
    Layer::new(
        WindowsNames,
        Layer::new(
            Hfs,
            Layer::new(Ntfs, Layer::new(WindowsDevices, Layer::new(Plain, bottom))),
        ),
    )
}
