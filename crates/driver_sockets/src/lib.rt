//! The sockets of drivers, without the server behind them: what a socket still waits for, which connection of the server is lent
//! to which socket, and which cursors are open.
#![tactic(auto)]

mod asked_connection;
mod info;
mod job;
pub mod laws;
mod lending;
mod open_cursors;
mod socket;
mod taken_replies;

pub use asked_connection::{connection_for, is_held, loan_of, loan_to_end};
pub use info::next_info;
pub use job::{Job, Question, Stage};
pub use lending::{Lending, Loan};
pub use open_cursors::{OpenCursor, OpenCursors, end_command};
pub use socket::{Socket, grow};
pub use taken_replies::{give_up, go_on, read_reply};
