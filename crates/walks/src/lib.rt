//! Walks through the documents of a collection: from the first `_id` to the last that is asked for, by `_id`s that are told, by a list of
//! them, and in the order of an index; and batches that are filled meanwhile.
#![tactic(auto)]

mod batches;
mod by_ids;
mod id_range;
mod in_order;
mod listed;
mod scanning;
mod within;

pub use batches::{BatchAsked, GivenBatch, Walk, batch_by_ids, batch_of_turn, batch_of_version};
pub use by_ids::{fold_by_ids, look_up, selected_by_ids, spelled_within};
pub use id_range::fold_asked;
pub use in_order::{MOST_READ, OrderedWalk, batch_in_order};
pub use listed::{Listed, batch_of_listed, listed_texts};
pub use scanning::{BATCH, scanned};
pub use within::{are_within, built_within};
