//! When two names meet on a file system.
#![tactic(auto)]

ghost use Rattle.std.specs.Prelude.{◌≡◌, ◌↔◌, IsTrue};
ghost use Rattle.meetings.specs.Meeting.{Meets, meet};

use filesystems::FileSystem;
use tag::components::Components;

/// Whether two names meet, by the first components in which they differ. No component of the second name is looked for where
/// the first has none more.
fn meet_by_components<F: FileSystem>(files: &F, first: &[u8], second: &[u8]) -> bool
    ensures { result ≡ meet (F.FileSystem.together files.now) first.now second.now }
{
    Components::of(first)
        .zip(Components::of(second))
        .find(|(x, y)| x != y)
        .is_none_or(|(x, y)| files.lie_together(x, y))
}

/// Whether two names meet: they are equal, one goes on after the other with a slash, or the first components in which they differ
/// lie together.
// The shorter name comes first, so that of a name that goes on after it no further component is read.
pub fn meets<F: FileSystem>(files: &F, left: &[u8], right: &[u8]) -> bool
    ensures test { result ≡ meet (F.FileSystem.together files.now) left.now right.now }
    ensures words { IsTrue result ↔ Meets (F.FileSystem.together files.now) left.now right.now }
{
    if left.len() <= right.len() {
        meet_by_components(files, left, right)
    } else {
        meet_by_components(files, right, left)
    }
}
