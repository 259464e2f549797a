//! What a database's collections are, with their documents and indexes; which entries of a sorted map keep them; and what edits of these entries
//! and documents that are written make of them. It stands in specs/: the crate has no code but a limit that others ask for too.
#![tactic(auto)]

/// The most indexes of a collection, beside that on `_id`.
pub const MOST_INDEXES: usize = 16;
