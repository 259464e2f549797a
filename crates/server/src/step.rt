//! Steps of a history.

use engine::ConnId;

/// What may happen to a server: bytes come on a connection, a turn is made, or a connection ends.
#[derive(Drop)]
pub enum Step {
    Bytes(ConnId, Vec<u8>),
    Turn,
    Gone(ConnId),
}
