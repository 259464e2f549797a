//! Secondary indexes apart from where they are kept: what defines one, which keys a document has in it, and what becomes of
//! these where one document replaces another.
//!
//! `definition` has what an index is, `catalogue` the document that spells it, `arrays` which of its paths meet an array,
//! `texts` and `keys` the encoded keys of a document, `changes` which of them go and which come.
#![tactic(auto)]

mod arrays;
mod catalogue;
mod changes;
mod definition;
mod keys;
pub mod laws;
mod texts;

pub use catalogue::put_field;
pub use changes::{KeyChanges, entry_key};
pub use definition::{IndexField, IndexSpec, copy_fields};
pub use keys::keys_in_all;

/// The most bytes of the texts of a key's values together.
pub const KEY_LIMIT: usize = 500;
