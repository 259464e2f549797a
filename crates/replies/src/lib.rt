//! What commands are answered: documents, and batches of them.
#![tactic(auto)]

mod batch;
mod batch_spelling;
mod connection;
mod giving;
mod open_batch;
mod reply;
mod shared_document;

pub use batch_spelling::{BatchKind, batch_reply, whole_reply};
pub use connection::{CONNECTIONS, ConnId};
pub use giving::{Gives, spelled_all};
pub use open_batch::OpenBatch;
pub use reply::{
    Answer, add, built, create_indexes_reply, described_document, done, drop_indexes_reply,
    drop_reply, explain_reply, full_bytes, insert_reply, listed_document, out_of_memory_bytes,
    ping_reply, put, refusal_document, spelled, total_reply,
};
pub use shared_document::SharedDocument;

/// The most bytes of the array of a batch.
pub const BATCH_LIMIT: usize = 900_000;
/// The most bytes of a reply: those of a message without its frame.
pub const REPLY_LIMIT: usize = 1_048_555;
/// The documents of a first batch where the command names no number.
pub const FIRST_BATCH: usize = 101;
