//! What aggregation pipelines make of documents (MongoDB manual, "Aggregation Stages"), and which documents they need.
//!
//! `running` runs a pipeline, `stages` is the table of what its stages do, each in a file of its own; `limits` judges what
//! they give. `taking` says which documents are needed at all, `gathering` groups those that come one after the other.
#![tactic(auto)]

mod accumulators;
mod count;
mod expression;
mod fields;
mod gathering;
mod group_ids;
mod groups;
pub mod laws;
mod limits;
mod matching;
mod numbers;
mod path_source;
mod path_value;
mod projecting;
mod running;
mod stages;
mod taking;
mod unwinding;
mod windows;

pub use gathering::Gathering;
pub use limits::RESULT_LEVELS;
pub use running::run;
pub use taking::{FirstSorted, first_sorted, leading_match, most_needed, still_needed, takes_raw};
