//! The fields that MongoDB's drivers send: which of a command, an index or a statement the database has, which say nothing to it, and which are
//! refused, by which reason.
#![tactic(auto)]

mod cleaning;
mod command;
mod options;
mod reason;
mod rules;

pub use cleaning::{Whose, first_refused, kept};
pub use command::{Asked, Command, Own, command_of};
pub use reason::{Reason, refusal_reply};
pub use rules::Rule;
