//! Laws of messages and their replies that need no server. The crate has no code but for them.
#![tactic(auto)]

pub mod laws;
