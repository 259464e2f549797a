//! The distinct values of a path in documents (MongoDB manual, distinct): each once, in the order of values.
#![tactic(auto)]

mod distinct;
pub mod laws;
mod ordered;

pub use distinct::DistinctValues;
