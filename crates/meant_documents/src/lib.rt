//! Which documents the statements of an update or a delete may mean, asked of the documents' bytes: a walk or a look-up keeps these and no others.
#![tactic(auto)]

mod deletions;
mod updates;

pub use deletions::Matched;
pub use updates::{Meaning, all_made};
