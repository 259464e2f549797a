//! Open cursors, of which some hold no documents: these go on in a version of the collections that is pinned.
#![tactic(auto)]

mod cursors;
mod ending;
mod kept;
mod kills;
mod list;
mod open_cursor;
mod order;
mod rest;
mod source;
mod walk;

pub use cursors::Cursors;
pub use ending::Ends;
pub use kept::KeptDocuments;
pub use kills::{ToldApart, kill_reply, tell_apart};
pub use list::{PinnedList, TextList};
pub use order::PinnedOrder;
pub use rest::Rest;
pub use source::Source;
pub use walk::PinnedWalk;
