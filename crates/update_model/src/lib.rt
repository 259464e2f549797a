//! What an update is, and what it makes of a document. It stands in specs/: of code there is the list of the operators alone,
//! by which the definitions tell them apart.
#![tactic(auto)]

mod operators;

pub use operators::Operator;
