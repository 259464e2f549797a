//! The server: bytes in, turns, bytes out.
#![tactic(auto)]

mod anew;
mod check;
mod connection;
mod drive;
mod dump;
pub mod laws;
mod preparing;
mod service;
mod serving;
mod step;
mod turn;

pub use anew::run_anew;
pub use collections::Walk;
pub use connection::FeedFault;
pub use drive::{DriveFault, DriveOut};
pub use dump::dump_line;
pub use engine::{CheckFault, Counts};
pub use roots::{Config, OpenFault};
pub use service::serve_on;
pub use sockets::ServeFault;
pub use step::Step;
pub use turn::{Core, TurnFault, TurnOut};
