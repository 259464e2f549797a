//! How far long work is.

/// Who watches long work.
pub trait Watch {
    /// So many documents are done in all, of so many bytes of the input.
    fn done(&mut self, documents: u64, bytes: u64);
}

/// Nobody watches.
#[derive(Clone, Copy, Debug)]
pub struct Unwatched;

impl Watch for Unwatched {
    fn done(&mut self, _documents: u64, _bytes: u64) {}
}
