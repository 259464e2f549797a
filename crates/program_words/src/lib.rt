//! What the words ask for that `docpage` is started with, and what it says of itself. The crate knows nothing of databases.
//!
//! `words` reads them (crate clap), `help` has the texts, `fault` why they ask for nothing.
#![tactic(auto)]

mod fault;
mod help;
mod words;

pub use fault::WordsFault;
pub use help::help_for;
pub use words::{
    AskWords, DumpWords, ExportWords, ImportWords, Listened, LocalTask, Served, Task, Words,
    read_words,
};
