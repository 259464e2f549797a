//! The collections of a database file, kept in a tree of copied pages: their documents are read page by page, and changed by lists of
//! edits, which a turn makes durable as one commit or takes back.
#![tactic(auto)]

mod applying;
mod collections;
mod folding;
mod index_checks;
mod index_texts;
pub mod laws;
mod lookups;
mod mark;
mod other_keys;
mod picking;
mod remembered;
mod versions;
mod walk;

pub use collections::Collections;
pub use folding::DocumentFold;
pub use index_texts::{FirstTexts, NextTexts};
pub use lookups::{MOST_COLLECTIONS, Name};
pub use mark::Mark;
pub use walk::{Walk, goes_on_walking};
