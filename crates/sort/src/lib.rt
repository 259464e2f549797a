//! Sorts: reading one, and the order that it gives to documents.
//!
//! `sort` reads a sort, `sorting` orders by it documents, or what lends them (`as_document`).
#![tactic(auto)]

mod as_document;
pub mod laws;
mod sort;
mod sorting;

pub use as_document::AsDocument;
pub use sort::{Field as SortField, Sort};
