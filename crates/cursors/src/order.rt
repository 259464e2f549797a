//! The walk in the order of an index by which a cursor goes on that holds no documents.

ghost use Rattle.std.specs.Prelude.{◌≡◌, drop};

use crate::rest::Rest;
use filter::Filter;
use index::IndexSpec;
use pager::Version;
use projection::Projection;

/// Where a walk through the entries of an index of a pinned version goes on, and what it is still to give.
#[derive(Drop)]
pub struct PinnedOrder {
    /// What is pinned for it.
    pub version: Version,
    /// The number of its collection.
    pub number: u32,
    pub filter: Filter,
    /// What is given of each document.
    pub projection: Projection,
    pub index: IndexSpec,
    /// How many documents may still come; 0 is no limit.
    pub limit: usize,
    /// The text of the entry from which it goes on.
    pub from: Vec<u8>,
    /// It ends with the entries of this text and of all that goes on from it.
    pub last: Vec<u8>,
    /// What it is still to give, as the projection leaves it.
    pub rest: Rest,
}

impl PinnedOrder {
    ghost use Rattle.cursors.specs.View.{order_of};
    ghost use Rattle.cursors.specs.Changes.{onwards};

    /// It gave so many documents, and goes on from the text of an entry.
    pub(crate) fn go_on(&mut self, count: usize, from: Vec<u8>)
        ensures walk { order_of self.new ≡ onwards count from.items (order_of self.old) }
        ensures rest { self.new.rest.value ≡ drop count self.old.rest.value }
    {
        self.rest.give(count);
        self.limit = self.limit.saturating_sub(count);
        self.from = from;
    }
}
