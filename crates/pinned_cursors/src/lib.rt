//! Cursors that hold no documents, over the file in which the versions that they read are pinned.
#![tactic(auto)]

mod ending;
mod first;
mod first_in_order;
mod giving;
mod next_batches;
mod opening;

pub use ending::end_all;
pub use first::{FirstAsked, give_first};
pub use first_in_order::{InOrder, give_first_in_order};
pub use giving::give_next;
pub use opening::{ListLeft, WalkSoFar, open_listed, open_pinned};
