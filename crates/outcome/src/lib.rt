//! Words of contracts for what a function that may fail returns, for any type of faults. They stand in specs/Outcome: the
//! crate has no code.
#![tactic(auto)]
