//! How the documents of a find are found: what a filter asks of a path so that an index can serve it, the range that it gives in one, the choice
//! among them, and its text. It stands in specs/: the crate has no code.
#![tactic(auto)]
