//! Filters: reading one, and whether it holds of a document.
//!
//! `condition` has a filter as it was read, `reading` reads one; `predicate` is what is asked of one value, `matching`
//! of a document, `raw_matching` of one that stays its bytes, `element` of one element of an array, `value_set` of
//! one among many.
#![tactic(auto)]

mod condition;
mod copying;
mod element;
pub mod laws;
mod matching;
mod operands;
mod operator;
mod parsing;
mod predicate;
mod raw_matching;
mod value_set;

pub use condition::{Comparison, Condition, Filter, Predicate};
pub use operands::{has_operators, path_in};
