//! Documents as MongoDB Extended JSON v2 (mongodb/specifications, source/extended-json), canonical and relaxed, and back.
//!
//! `writing` and `scalars` put the tokens of a document. `tokens`, `numbers`, `encoded`, `moments` and `wrapped` read what
//! stands at the front of tokens, `reading` documents, `texts` texts and `lines` a document a line.
#![tactic(auto)]

mod calendar;
mod encoded;
mod fault;
mod form;
pub mod laws;
mod lines;
mod moments;
mod numbers;
mod parsing;
mod scalars;
mod texts;
mod tokens;
mod wrapped;
mod wrapper;
mod writing;

pub use fault::{ExtJsonFault, FaultAt};
pub use lines::LineReader;
pub use texts::read;
pub use writing::{write_canonical, write_relaxed};
