//! Updates: reading one, and what it makes of a document (MongoDB manual, "Update Operators").
//!
//! `operators` is the table of the operators. Each family that does more at a path than put a value there, or take it
//! away, has a file for it: `numbers`, `bounds`, `arrays`, `renames`; `replacements` has updates without operators.
//! `reading` reads an update, `applying` applies it, `unsets` takes many fields away at once, `renaming` renames many of
//! one document, `moving` moves many from one to another, `inside` reaches one further down, `touching` has edits that
//! change nothing, `stored` judges the whole document, `upserts` makes the document that an upsert starts from.
#![tactic(auto)]

mod applying;
mod arrays;
mod bounds;
mod copying;
mod edit;
mod edit_list;
mod inside;
pub mod laws;
mod moving;
mod numbers;
mod operators;
mod parsing;
mod renames;
mod renaming;
mod replacements;
mod stored;
mod sums;
mod touching;
mod unsets;
mod upserts;

pub use edit::Update;
pub use stored::{STORED_LEVELS, copy_id_first, id_of, limits_fault, names_fault, stored_fault};
pub use upserts::upsert_base;
