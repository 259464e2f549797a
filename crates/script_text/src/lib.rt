//! The text of scripts: lines and the words with which they begin, the values, bytes and numbers that stand in them, the messages that
//! they put together, and what they say of replies. The form of scripts is that of crate `scripts`, which plays them.
#![tactic(auto)]

mod byte_text;
mod expansion;
mod fault;
mod lines;
mod message;
mod numbers;
mod reply;
mod tables;
mod values;
mod words;

pub use byte_text::bytes_in;
pub use expansion::{opened, with_number};
pub use fault::{Fault, differs};
pub use lines::{Line, lines_of};
pub use message::{Draft, Shape, put_over};
pub use numbers::{number_in, row_in};
pub use reply::{Reply, batch_reply, done, is_document, number_of, with_ids};
pub use tables::{Subject, subject_of};
pub use values::{document_in, documents_in, values_in};
pub use words::{Head, Kind, Word, head_of};
