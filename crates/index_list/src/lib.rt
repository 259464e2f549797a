//! The indexes of a collection as a list: which of those that are asked for are to be made, and which are dropped.
#![tactic(auto)]

mod dropped;
mod new_indexes;

pub use dropped::{check_dropped, first_dropped};
pub use new_indexes::{ID_INDEX, is_in_conflict, is_there, unused_number};
