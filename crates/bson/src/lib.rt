//! Documents of BSON 1.1 (bsonspec.org): values, building and writing.
//!
//! `value` has the types and what contracts see of them, `document` and `array` the building, over what `beside`
//! and `nesting` keep, `copying` copies; `scalars` and `writing` give the bytes. The crate `bson_bytes` reads them.
#![tactic(auto)]

mod array;
mod beside;
mod binary;
mod composing;
mod copying;
mod depths;
mod document;
mod fault;
mod kind;
pub mod laws;
mod names;
mod nesting;
mod numbers;
mod object_id;
mod overview;
mod raw_scalar;
mod scalars;
mod sizing;
mod text;
mod value;
mod writing;

pub use binary::{Binary, Bytes, Subtype};
pub use composing::{begin_frame, end_frame, put_head};
pub use fault::{BuildFault, EncodeFault, NoMemory};
pub use kind::Kind;
pub use names::{Names, first_zero};
pub use object_id::ObjectId;
pub use raw_scalar::RawScalar;
pub use scalars::put_string;
pub use text::Text;
pub use value::{Array, Document, Pair, Value};
pub use writing::{encode, encode_onto, put_value};

/// The most levels to which documents and arrays nest, the top document among them.
pub const MOST_LEVELS: u32 = 100;

/// The most bytes that a message may have, and so a document.
pub const MESSAGE_LIMIT: usize = 1_048_576;
