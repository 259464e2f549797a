//! A write of several statements against its statements one by one. The crate has no code but for its laws.
#![tactic(auto)]

pub mod laws;
