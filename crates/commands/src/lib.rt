//! Commands: what the body of a message asks for, or why it is refused.
#![tactic(auto)]

mod aggregation;
mod alone;
mod command;
mod count;
mod create;
mod create_indexes;
mod delete;
mod drop_collection;
mod drop_indexes;
mod explain;
mod fields;
mod find;
mod get_more;
mod hello;
mod insert;
mod kill_cursors;
mod list_collections;
mod list_indexes;
mod names;
mod new_index;
mod ping;
mod statements;
mod updates;
mod values;

pub use aggregation::Aggregate;
pub use command::Command;
pub use count::Count;
pub use create::Create;
pub use create_indexes::CreateIndexes;
pub use delete::{Delete, Deletion};
pub use drop_collection::DropCollection;
pub use drop_indexes::{DropIndexes, DroppedIndexes};
pub use explain::Explain;
pub use find::{Find, Query};
pub use get_more::GetMore;
pub use insert::Insert;
pub use kill_cursors::KillCursors;
pub use list_collections::ListCollections;
pub use list_indexes::ListIndexes;
pub use new_index::NewIndex;
pub use statements::MOST_STATEMENTS;
pub use updates::{Update, UpdateStatement};
