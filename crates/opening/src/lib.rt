//! A file that is opened, what contracts know of its collections, and a check that reads each entry of its tree once and judges it, so
//! that the file has collections and nothing else.
#![tactic(auto)]

mod ghost_state;
mod judging;
mod loading;

pub use collections::MOST_COLLECTIONS;
pub use ghost_state::GhostState;
pub use judging::Named;
pub use loading::{Loading, load_file, open_file};
