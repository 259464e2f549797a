//! Of which documents the `_id`s are told without a walk: by filters that ask for them, by indexes that serve filters, and by what
//! statements name. Others may be among them; none that is looked for is left out.
#![tactic(auto)]

mod alternatives;
mod by_id;
mod by_index;
mod id_set;
mod members;
mod telling;

pub use by_id::{is_id, put_id};
pub use by_index::range_asked;
pub use id_set::IdSet;
pub use telling::{Told, asked_ids, told_in};
