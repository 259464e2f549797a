//! How many pages a file has, and how many of them are free.
ghost use Rattle.std.specs.Prelude.{◌≡◌, ◌+◌, ◌<◌, max};

use crate::root::Root;

/// The pages of a file.
#[derive(Clone, Copy, Debug, PartialEq, Eq)]
pub struct PageCounts {
    /// How many there are, with page 0: 1 in an empty database.
    pub pages: u32,
    /// How many of them nothing reaches.
    pub free: u32,
}

/// The counts of a file with this root, whose tree reaches so many pages.
pub(crate) fn counts_of(root: Root, reached: usize) -> PageCounts
    ensures pages { result.pages ≡ max root.pages 1 }
    ensures all { reached < max root.pages 1 → 1 + reached + result.free ≡ result.pages }
{
    let pages = root.pages.max(1);
    PageCounts {
        pages,
        free: (pages as usize - 1).saturating_sub(reached) as u32,
    }
}
