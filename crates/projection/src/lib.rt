//! Projections: reading one, and what it leaves of a document.
//!
//! `projection` reads a projection, whose paths are a `path_list` meanwhile; `projecting` applies it.
#![tactic(auto)]

pub mod laws;
mod path_list;
mod projecting;
mod projection;

pub use projection::{Projection, ProjectionFields};
