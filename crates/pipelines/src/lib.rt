//! Aggregation pipelines as they are read (MongoDB manual, "Aggregation Stages").
//!
//! `pipeline` reads one, `stages` and `accumulators` are the tables of the names; `operands` and `names` read what stages are
//! given. What a pipeline makes of documents stands in crate `aggregate`.
#![tactic(auto)]

mod accumulators;
mod copying;
mod expression;
mod grouping;
mod names;
mod operands;
mod pipeline;
mod projecting;
mod stage;
mod stages;

pub use expression::Expression;
pub use grouping::{GroupField, GroupId, Grouping, IdField};
pub use names::FieldName;
pub use pipeline::{MOST_STAGES, Pipeline};
pub use projecting::{Computed, Projecting};
pub use stage::Stage;
