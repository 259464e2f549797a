//! What an open cursor goes on by.

ghost use Rattle.std.specs.Prelude.{◌≡◌, ◌≢◌, None, drop, option_map};
ghost use Rattle.cursors.specs.Changes.{onwards};
ghost use Rattle.cursors.specs.View.{rest_in, walk_in};

use crate::kept::KeptDocuments;
use crate::list::PinnedList;
use crate::order::PinnedOrder;
use crate::walk::PinnedWalk;

/// What an open cursor gives its documents from.
#[derive(Drop)]
pub enum Source {
    /// From those that it keeps.
    Kept(KeptDocuments),
    /// From a version of the collections that is pinned, by a walk through a collection.
    Pinned(PinnedWalk),
    /// From a version of the collections that is pinned, by a list of `_id`s.
    Listed(PinnedList),
    /// From a version of the collections that is pinned, in the order of an index.
    Ordered(PinnedOrder),
}

impl Source {
    /// One that reads a pinned version gave so many documents, and goes on from a key text.
    pub(crate) fn go_on(&mut self, count: usize, from: Vec<u8>)
        requires { walk_in self.old ≢ None }
        ensures walk { walk_in self.new ≡ option_map (onwards count from.items) (walk_in self.old) }
        ensures rest { rest_in self.new ≡ drop count (rest_in self.old) }
    {
        match self {
            Source::Kept(_) => unreachable!("it reads a pinned version"),
            Source::Pinned(walk) => walk.go_on(count, from),
            Source::Listed(list) => list.go_on(count),
            Source::Ordered(order) => order.go_on(count, from),
        }
    }
}
