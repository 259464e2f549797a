//! Paths: what a path reaches in a document, and writing and removing at one.
//!
//! `part` has a path's names, `parsing` reads a path, `reaching` finds what it reaches, `place` the one place that an
//! edit's path names, `setting` and `removing` change a document there, `holding` takes values out of their places and puts
//! them back; `refusal` is the table of all refusals of commands.
#![tactic(auto)]

mod fault;
mod holding;
pub mod laws;
mod parsing;
mod part;
mod path_order;
mod path_set;
mod place;
mod reaching;
mod refusal;
mod removing;
mod setting;

pub use fault::PathFault;
pub use holding::{put_field, put_item, take_field, take_item};
pub use parsing::{Path, begins_with_dollar};
pub use part::Part;
pub use path_set::PathSet;
pub use place::{passes_array, value_at};
pub use reaching::{Reached, item_of_part, reach};
pub use refusal::Refusal;
pub use removing::{remove_at, remove_from, take_from};
pub use setting::{NewValue, write_at, write_into, write_new};

/// The most bytes of a path.
pub const PATH_LIMIT: usize = 255;

/// The most nulls that a write past the end of an array puts before its value.
pub const MOST_NULLS: usize = 1000;
