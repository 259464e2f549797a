//! What MongoDB drivers send, translated into the commands of this database, and the replies back.
#![tactic(auto)]

mod answering;
mod distinct;
mod explaining;
mod framing;
mod handshake;
pub mod laws;
mod modifying;
mod plan;
mod server_info;
mod starting;
mod step;

pub use answering::cursor_left;
pub use driver_messages::{BodyFault, Foreign, ForeignType, Form, Incoming, Message, StreamFault};
pub use driver_replies::{Batch, FreshIds, Kills};
pub use framing::framed;
pub use plan::{Plan, Wait};
pub use server_info::ServerInfo;
pub use step::Step;
