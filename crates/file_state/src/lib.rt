//! What an image of the disk holds, as functions of its bytes: its entries, and the collections that these tell.
//! It stands in specs/: the crate has no code but for its laws.
#![tactic(auto)]

pub mod laws;
