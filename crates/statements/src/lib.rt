//! The statements of an update or a delete, run over documents in memory.
#![tactic(auto)]

mod deletions;
pub mod laws;
mod matching;
mod statements;

pub use deletions::{Left, after_deletions, is_deleted};
pub use statements::{
    Ran, Run, Tally, Write, run_on, unless_memory, update_reply, upsert_document,
};
