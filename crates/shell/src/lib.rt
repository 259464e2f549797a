//! What people do with a database at a terminal: ask it in Extended JSON, and bring documents in and out as lines.
//!
//! `database` is what answers commands, `asking` asks it, `importing` and `exporting` bring documents in and out;
//! `commands` builds commands, `replies` looks into replies, `lines` reads lines, `layout` lays replies out, `progress` says how far long work is.
#![tactic(auto)]

mod asking;
mod commands;
mod database;
mod exporting;
mod fault;
mod importing;
mod layout;
mod lines;
mod progress;
mod replies;

pub use asking::{Asked, ask};
pub use database::{Database, DatabaseFault};
pub use exporting::export;
pub use fault::{LineFault, ShellFault};
pub use importing::import;
pub use progress::{Unwatched, Watch};
