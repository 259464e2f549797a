//! Which documents of a collection a command looks for: filters, and `_id`s that tell of others.
#![tactic(auto)]

mod document_predicate;

pub use document_predicate::DocumentPredicate;
