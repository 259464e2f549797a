//! How documents are found: by a scan of their collection, or by a range of one of its indexes.
//!
//! `usable` has what a filter asks of a path so that an index can serve it, `field` the fields of an index, `range` the
//! range that a filter gives in one, `span` between which bytes its keys lie, `key_scan` where the text of the `_id` begins in
//! an entry, `found_ids` to which `_id`s entries lead, `plan` the choice among the ranges and its text.
#![tactic(auto)]

mod field;
mod found_ids;
mod key_scan;
pub mod laws;
mod plan;
mod range;
mod span;
mod spelling;
mod usable;

pub use found_ids::{ascending, ids_of};
pub use key_scan::id_text;
pub use plan::{Plan, choose, explain_text};
pub use range::{IndexRange, Leading};
pub use span::KeySpan;
pub use spelling::short_text;
pub use usable::Bound;
