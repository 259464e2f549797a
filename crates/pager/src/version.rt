//! Versions of the tree that are pinned.

/// A version of the tree that is pinned: what it reaches can be read until it is unpinned, whatever is committed meanwhile.
#[derive(Clone, Copy, Debug)]
pub struct Version {
    /// The number of the commit that was the last one when it was pinned.
    pub generation: u64,
    /// The root page of its tree, or 0 where it is empty.
    pub root: u32,
}
