//! A disk whose word counts only where something was true when it was made.
#![tactic(auto)]

mod disk;
pub mod laws;
mod trusted;

pub use disk::TrustedDisk;
