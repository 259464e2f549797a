//! Replies as MongoDB drivers expect them, where one message of theirs takes several commands of the database.
#![tactic(auto)]

mod batch;
mod distinct;
mod dropping;
mod fields;
mod fresh_ids;
mod indexes;
mod kills;
pub mod laws;
mod listing;
mod modifying;
mod new_ids;
mod parts;
mod tables;
mod tally;
mod texts;
mod upserts;
mod write_errors;
mod writes;

pub use batch::{Batch, drop_first, is_alone, is_ordered_in};
pub use distinct::{Distinct, documents_in, find_values, get_more, key_of};
pub use dropping::{drop_command, dropped_reply, first_batch, is_gone, list_command};
pub use fields::{Fact, add, document_of, put, set, text_value};
pub use fresh_ids::FreshIds;
pub use indexes::indexes_told;
pub use kills::{Kills, cursor_of, first_id, ids_of, kill_one};
pub use listing::{name_in, retold};
pub use modifying::{Modification, find_first, find_one, made_by, subject_of};
pub use new_ids::with_new_ids;
pub use parts::{Part, is_part, part_in};
pub use tables::named;
pub use tally::{Tally, refused};
pub use texts::{collection_of, text_or_none};
pub use upserts::is_true;
pub use write_errors::refused_statement;
pub use writes::{Write, write_of};
