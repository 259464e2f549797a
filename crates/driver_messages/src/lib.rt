//! Messages of MongoDB drivers: the bytes of a socket, in whatever chunks they come, and what is sent in them.
#![tactic(auto)]

mod foreign;
mod incoming;
pub mod laws;
mod message;
mod own_numbers;
mod passing;
mod place;
mod sections;
mod seeking;
mod stream_fault;
mod whole_double;
mod wire;
mod with_integers;

pub use foreign::{Foreign, ForeignType};
pub use incoming::Incoming;
pub use message::{BodyFault, Form, Message};
pub use stream_fault::StreamFault;
