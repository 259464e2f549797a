//! What a page holds.

use crate::{Branch, Leaf};

/// What a page holds.
#[derive(Debug, Drop)]
pub enum PageContent {
    /// Cells of the tree.
    Leaf(Leaf),
    /// Children of a page of the tree.
    Branch(Branch),
    /// Bytes of a chain, and the page that goes on, or 0 at its end. All pages but the last hold 4,076 bytes.
    Chain { next: u32, bytes: Vec<u8> },
    /// Numbers of free pages, at most 1,019, and the list's next page, or 0 at its end.
    FreeList { next: u32, pages: Vec<u32> },
}
