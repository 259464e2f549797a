//! The entries of a sorted map that collections, documents and indexes are kept as, written and read; and which edits lead
//! from one state to the next.
//!
//! `edits` has edits of the map, `state_edits` and `indexed_edits` those of collections and documents, `making` those of an
//! index that is made, `entry_reading` the way back.
#![tactic(auto)]

pub mod batch_laws;
pub mod building_laws;
mod catalogue_reading;
mod edits;
mod entering;
mod entry_keys;
mod entry_reading;
mod entry_values;
pub mod found_laws;
mod indexed_edits;
mod indexed_entries;
mod making;
mod other_keys;
mod replacing_edits;
mod state_edits;
pub mod state_laws;

pub use catalogue_reading::{Catalogued, catalogue_parts, catalogue_told};
pub use edits::Edits;
pub use entering::{Keyed, stay_indexed};
pub use entry_keys::{catalogue_key, document_key, first_key, index_key};
pub use entry_reading::{document_in, namespace_in};
pub use making::NewEntries;
pub use other_keys::{end_of, is_another};
