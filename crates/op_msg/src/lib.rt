//! Messages of the MongoDB wire protocol, OP_MSG: frames from a stream, and replies.
#![tactic(auto)]

mod fault;
mod first_message;
mod frames;
pub mod laws;
mod pieces;
mod reply_numbers;
mod request;
mod sections;
mod writing;

pub use fault::FrameFault;
pub use frames::Frames;
pub use reply_numbers::next_number;
pub use request::{Head, Request, request_at_front};
pub use writing::{FRAME_BYTES, reply, respell, spelled_reply};
