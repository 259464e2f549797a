//! What a database is, without a file: collections of documents and open cursors, and what each command makes of them and replies.
//! It stands in specs/: the crate has no code but for its laws.
#![tactic(auto)]

pub mod laws;
