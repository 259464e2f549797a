//! The engine: commands over collections of documents.
#![tactic(auto)]

mod aggregation;
mod by_list;
mod check_fault;
mod checking;
mod count;
mod create;
mod create_indexes;
mod delete;
mod drop_collection;
mod drop_indexes;
mod dump;
mod engine;
mod entering;
mod explaining;
mod find;
mod get_more;
mod hello;
mod in_order;
mod indexing;
mod insert;
mod kill_cursors;
pub mod laws;
mod list_collections;
mod list_indexes;
mod looking;
mod numbering;
mod refusal;
mod removing;
mod troubles;
mod unindexing;
mod updates;
mod walking;
mod writing;

pub use check_fault::CheckFault;
pub use checking::Counts;
pub use engine::{Engine, Reply};
pub use entry_model::MOST_INDEXES;
pub use opening::MOST_COLLECTIONS;
pub use path::Refusal;
pub use refusal::body_refusal;
pub use replies::{Answer, CONNECTIONS, ConnId, full_bytes, out_of_memory_bytes, refusal_document};
