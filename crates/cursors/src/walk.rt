//! The walk by which a cursor goes on that holds no documents.

ghost use Rattle.std.specs.Prelude.{◌≡◌, drop};

use crate::rest::Rest;
use filter::Filter;
use pager::Version;
use projection::Projection;

/// Where a walk through a pinned version of the collections goes on, and what it is still to give.
#[derive(Drop)]
pub struct PinnedWalk {
    /// What is pinned for it.
    pub version: Version,
    /// The number of its collection.
    pub number: u32,
    pub filter: Filter,
    /// What is given of each document.
    pub projection: Projection,
    /// How many documents may still come; 0 is no limit.
    pub limit: usize,
    /// The key text from which it goes on.
    pub from: Vec<u8>,
    /// What it is still to give, as the projection leaves it.
    pub rest: Rest,
}

impl PinnedWalk {
    ghost use Rattle.cursors.specs.View.{walk_of};
    ghost use Rattle.cursors.specs.Changes.{onwards};

    /// It gave so many documents, and goes on from a key text.
    pub(crate) fn go_on(&mut self, count: usize, from: Vec<u8>)
        ensures walk { walk_of self.new ≡ onwards count from.items (walk_of self.old) }
        ensures rest { self.new.rest.value ≡ drop count self.old.rest.value }
    {
        self.rest.give(count);
        self.limit = self.limit.saturating_sub(count);
        self.from = from;
    }
}
