//! The pages of a database file, as a tree of pages needs them: read through a cache, given out from a book of free pages, and
//! made durable or taken back as one turn.
#![tactic(auto)]

mod cached_pages;
mod finding;
mod mark;
mod merging;
mod pager;
mod planning;
mod taking;
mod version;
mod writing;

pub use mark::Mark;
pub use pager::Pager;
pub use version::Version;
