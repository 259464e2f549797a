//! Bytes that spell documents of BSON 1.1 (bsonspec.org): judged, read into values, and looked into where they stand.
//!
//! `frames` and `read_scalars` have the front of bytes, `decoding` reads all of them, `checking` judges them and builds nothing; `raw` and `spelled` are
//! documents that stay their bytes.
#![tactic(auto)]

mod checking;
mod decoding;
mod distinct;
mod elements;
mod fault;
mod frames;
pub mod laws;
mod raw;
mod read_scalars;
mod spelled;
mod spelled_scalar;

pub use decoding::{decode, decode_inner};
pub use distinct::{NamedParts, count_distinct};
pub use fault::BsonFault;
pub use frames::read_name;
pub use raw::{RawDoc, RawValue};
pub use spelled::SpelledDocument;
